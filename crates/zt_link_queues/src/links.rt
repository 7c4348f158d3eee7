// Links between faces, and the open link that a face ends.
ghost use Rattle.std.specs.Prelude.{◌≡◌, ◌+◌, ◌-◌, ◌<◌, ◌++◌, ◌&&◌, [], ◌∷◌, false, true, Some};
ghost use Rattle.std.specs.Prelude.{length, nat_lt, take, OnErr, OnOk};
ghost use Rattle.std.specs.Option.{option_copied};
ghost use Rattle.zt_model.specs.Linking.{is_end_of};
ghost use Rattle.zt_model.specs.Lists.{first_where};
ghost use Rattle.zt_model.specs.Places.{at_nth};
ghost use Rattle.zt_link_queues.specs.Found.{AreBelow, FacesRise, IsCut};

use std::alloc::Global;
use std::marker::Model;
use zt_keys::Memory;

/// The two faces that a link joins, and whether it is open.
#[derive(Drop)]
pub struct LinkState {
    one: u32,
    two: u32,
    is_open: bool,
}

impl Model for LinkState {
    ghost use Rattle.zt_model.specs.Places.{Link};

    ghost Value = { Link };

    ghost view = { λ l. record { one = l.one; two = l.two; is_open = l.is_open } };
}

impl LinkState {
    /// The face that it joins to a later one.
    pub fn one(&self) -> u32
        ensures { result ≡ self.now.one }
    {
        self.one
    }

    /// The later face.
    pub fn two(&self) -> u32
        ensures { result ≡ self.now.two }
    {
        self.two
    }

    /// Whether it is open.
    pub fn is_open(&self) -> bool
        ensures { result ≡ self.now.is_open }
    {
        self.is_open
    }

    /// Whether a face ends the link.
    pub fn is_end(&self, face: u32) -> bool
        ensures { result ≡ is_end_of face self.now }
    {
        face == self.one || face == self.two
    }
}

// How many links have no face from a number on. Found at once where all faces below end links, else
// by binary search.
fn count_before(links: &[LinkState], face: u32) -> usize
    requires { FacesRise 0 links.now }
    ensures { IsCut face links.now result }
{
    let guess = face.saturating_sub(1) as usize / 2;
    if guess < links.len() {
        let link = &links[guess];
        if link.is_end(face) {
            return guess;
        }
    }
    links.partition_point(|link| link.two() < face)
}

// The open link that a face ends.
fn find_in(links: &[LinkState], face: u32) -> Option<&LinkState>
    requires { FacesRise 0 links.now }
    ensures { option_copied result
        ≡ first_where (λ link. link.is_open && is_end_of face link) links.now }
{
    let at = count_before(links, face);
    if at >= links.len() {
        return None;
    }
    let link = &links[at];
    if link.is_open() && link.is_end(face) {
        Some(link)
    } else {
        None
    }
}

fn shut_in(links: &mut Vec<LinkState>, at: usize)
    requires { at < length links.old.items }
    ensures { links.new.items
        ≡ at_nth (at + 1) (λ l. record l { is_open = false }) links.old.items }
{
    let link = &mut links[at];
    link.is_open = false;
}

/// Links, which are numbered from 1 in order of making. The faces of each are above those of the
/// links before it, since they are made with it.
#[derive(Drop)]
pub struct Links {
    links: Vec<LinkState>,
}

impl Model for Links {
    ghost use Rattle.std.specs.Prelude.{List};
    ghost use Rattle.zt_model.specs.Places.{Link};
    ghost use Rattle.zt_link_queues.specs.Found.{FacesRise};

    ghost Value = { List Link };

    ghost view = { λ l. l.links.items };

    ghost invariant = { λ l. FacesRise 0 l.links.items };
}

impl Links {
    /// No links. It takes no memory.
    pub fn new(alloc: Global) -> Self
        ensures { result ≡ [] }
    {
        Links {
            links: Vec::new(alloc),
        }
    }

    /// The links, in order of number.
    pub fn as_slice(&self) -> &[LinkState]
        ensures { result.now ≡ self.now }
    {
        self.links.as_slice()
    }

    /// The open link that a face ends. A binary search.
    pub fn find_open(&self, face: u32) -> Option<&LinkState>
        ensures { option_copied result
            ≡ first_where (λ link. link.is_open && is_end_of face link) self.now }
    {
        find_in(&self.links, face)
    }

    /// An open link between two faces, which are above those of all links before it, is put behind
    /// these. After an error nothing is changed.
    pub fn push(&mut self, one: u32, two: u32) -> Result<(), Memory>
        requires below { AreBelow one self.old }
        requires rising { one < two }
        ensures ok { OnOk result (self.new
            ≡ self.old ++ record { one = one; two = two; is_open = true } ∷ []) }
        ensures err { OnErr result (self.new ≡ self.old) }
    {
        self.links.push(LinkState {
            one,
            two,
            is_open: true,
        })?;
        Ok(())
    }

    /// The last link is taken away again.
    pub fn pop(&mut self)
        ensures { self.new ≡ take (length self.old - 1) self.old }
    {
        let _ = self.links.pop();
    }

    /// A link is closed.
    pub fn shut(&mut self, at: usize)
        requires { at < length self.old }
        ensures { self.new ≡ at_nth (at + 1) (λ l. record l { is_open = false }) self.old }
    {
        shut_in(&mut self.links, at);
    }
}
