// Samples that wait for subscribers, and what goes with a subscriber and with a session.
ghost use Rattle.std.specs.Prelude.{◌≡◌, ◌<◌, IfNone, IfSome, None, Some, length, slice_index_or};
ghost use Rattle.std.specs.List.{remove};
ghost use Rattle.std.specs.Option.{option_copied};
ghost use Rattle.zt_samples.specs.Samples.{is_for, oldest_sample, without_news};
ghost use Rattle.zt_samples.specs.Samples.{without_news_of_session, without_sample, without_session};
ghost use Rattle.zt_samples.specs.declared.samples.News.{News};

use crate::samples::{News, Sample, Told};

// Where the oldest sample for a subscriber stands.
fn place_of_sample<K>(news: &[News<K>], session: u32, subscriber: u32) -> Option<usize>
    ensures within { IfSome result (λ place. place < length news.now) }
    ensures there { IfSome result (λ place. (other : News K)
        → oldest_sample session subscriber news.now
        ≡ Some (slice_index_or news.now place other).sample) }
    ensures left { IfSome result
        (λ place. without_sample session subscriber news.now ≡ remove news.now place) }
    ensures absent { IfNone result (oldest_sample session subscriber news.now ≡ None) }
    ensures unchanged { IfNone result (without_sample session subscriber news.now ≡ news.now) }
{
    for (place, one) in news.iter().enumerate() {
        if session == one.session && subscriber == one.subscriber {
            return Some(place);
        }
    }
    None
}

/// The oldest sample that waits for the subscriber, which stays. None exactly where there is none.
pub fn oldest_sample<K>(news: &[News<K>], session: u32, subscriber: u32) -> Option<&Sample<K>>
    ensures { option_copied result ≡ oldest_sample session subscriber news.now }
{
    match place_of_sample(news, session, subscriber) {
        None => None,
        Some(place) => Some(&news[place].sample),
    }
}

/// Takes the oldest sample that waits for the subscriber. None exactly where there is none. This
/// takes no memory.
pub fn take_sample<K>(news: &mut Vec<News<K>>, session: u32, subscriber: u32) -> Option<Sample<K>>
    ensures sample { result ≡ oldest_sample session subscriber news.old.items }
    ensures left { news.new.items ≡ without_sample session subscriber news.old.items }
{
    match place_of_sample(news.as_slice(), session, subscriber) {
        None => None,
        Some(place) => {
            let one = news.remove(place);
            Some(one.sample)
        }
    }
}

/// A subscriber is gone: what waits for it goes.
pub fn drop_news<K: Drop>(news: &mut Vec<News<K>>, session: u32, subscriber: u32)
    ensures { news.new.items ≡ without_news session subscriber news.old.items }
{
    news.retain(|one| !(session == one.session && subscriber == one.subscriber));
}

/// A session is gone: what waits for its subscribers goes.
pub fn drop_news_of_session<K: Drop>(news: &mut Vec<News<K>>, session: u32)
    ensures { news.new.items ≡ without_news_of_session session news.old.items }
{
    news.retain(|one| session != one.session);
}

/// A session is gone: what it was told goes.
pub fn drop_told<K: Drop>(told: &mut Vec<Told<K>>, session: u32)
    ensures { told.new.items ≡ without_session session told.old.items }
{
    told.retain(|row| session != row.session);
}
