// The directions of links, and what waits in them.
ghost use Rattle.std.specs.Prelude.{◌≡◌, Some};
ghost use Rattle.std.specs.Option.{option_copied};
ghost use Rattle.zt_model.specs.Fabric.{is_linked_face, is_open_link};
ghost use Rattle.zt_model.specs.Linking.{oldest, sending_end, speaking_end};

use crate::state::FabricState;
use zt_keys::Key;
use zt_link_queues::LinkState;
use zt_protocol::Message;

/// The face whose messages a direction of a link takes.
pub fn sending_end(link: &LinkState, back: bool) -> u32
    ensures { result ≡ sending_end link.now back }
{
    if back { link.two() } else { link.one() }
}

/// The face at the other end of a direction of a link, which speaks the messages that it takes.
pub fn speaking_end(link: &LinkState, back: bool) -> u32
    ensures { result ≡ speaking_end link.now back }
{
    if back { link.one() } else { link.two() }
}

/// The oldest message that waits in a direction of a link, where one waits.
pub fn oldest<'a, K: Key>(
    s: &'a FabricState<K>,
    link: &LinkState,
    back: bool,
) -> Option<&'a Message<K>>
    ensures { option_copied result ≡ oldest s.now link.now back }
{
    s.first_waiting(sending_end(link, back))
}

/// Whether a link exists and is open.
pub fn is_open_link<K: Key>(s: &FabricState<K>, link: u32) -> bool
    ensures { result ≡ is_open_link s.now link }
{
    match s.link_at(link) {
        Some(link) => link.is_open(),
        None => false,
    }
}

/// Whether a face ends an open link.
pub fn is_linked_face<K: Key>(s: &FabricState<K>, face: u32) -> bool
    ensures { result ≡ is_linked_face s.now (Some face) }
{
    s.open_link_of(face).is_some()
}
