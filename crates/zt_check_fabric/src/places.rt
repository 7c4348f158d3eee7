// Places of faces, and links between them.
ghost use Rattle.std.specs.Prelude.{◌≡◌, false, true, IfOk};
ghost use Rattle.zt_model.specs.Linking.{sending_end, speaking_end};
ghost use Rattle.zt_model.specs.Places.{at_nth};

use crate::members::place_of_number;
use std::alloc::Global;
use std::marker::Model;
use zt_keys::Memory;

/// Where a face is: its gateway, and its number there.
#[derive(Drop)]
pub struct ShownPlace {
    gateway: u32,
    face: u32,
}

impl Model for ShownPlace {
    ghost use Rattle.zt_model.specs.Places.{Place};

    ghost Value = { Place };

    ghost view = { λ p. record { gateway = p.gateway; face = p.face } };
}

impl ShownPlace {
    /// The place of a gateway's face.
    pub fn new(gateway: u32, face: u32) -> Self
        ensures { result ≡ record { gateway = gateway; face = face } }
    {
        ShownPlace { gateway, face }
    }

    /// The number of its gateway.
    pub fn gateway(&self) -> u32
        ensures { result ≡ self.now.gateway }
    {
        self.gateway
    }

    /// Its number there.
    pub fn face(&self) -> u32
        ensures { result ≡ self.now.face }
    {
        self.face
    }

    /// An equal place.
    pub fn copy(&self) -> ShownPlace
        ensures { result ≡ self.now }
    {
        ShownPlace::new(self.gateway, self.face)
    }
}

/// The two faces that a link joins, by their numbers in scripts, and whether it is open.
#[derive(Drop)]
pub struct ShownLink {
    one: u32,
    two: u32,
    is_open: bool,
}

impl Model for ShownLink {
    ghost use Rattle.zt_model.specs.Places.{Link};

    ghost Value = { Link };

    ghost view = { λ l. record { one = l.one; two = l.two; is_open = l.is_open } };
}

impl ShownLink {
    /// An open link between two faces.
    pub fn new(one: u32, two: u32) -> Self
        ensures { result ≡ record { one = one; two = two; is_open = true } }
    {
        ShownLink {
            one,
            two,
            is_open: true,
        }
    }

    /// The face of the first gateway.
    pub fn one(&self) -> u32
        ensures { result ≡ self.now.one }
    {
        self.one
    }

    /// The face of the second gateway.
    pub fn two(&self) -> u32
        ensures { result ≡ self.now.two }
    {
        self.two
    }

    /// Whether it is open.
    pub fn is_open(&self) -> bool
        ensures { result ≡ self.now.is_open }
    {
        self.is_open
    }

    /// An equal link.
    pub fn copy(&self) -> ShownLink
        ensures { result ≡ self.now }
    {
        ShownLink {
            one: self.one,
            two: self.two,
            is_open: self.is_open,
        }
    }

    /// The link is closed.
    pub fn close(&mut self)
        ensures { self.new ≡ record self.old { is_open = false } }
    {
        self.is_open = false;
    }

    /// The face whose messages a direction takes.
    pub fn sending_end(&self, back: bool) -> u32
        ensures { result ≡ sending_end self.now back }
    {
        if back { self.two } else { self.one }
    }

    /// The face that speaks the messages of a direction.
    pub fn speaking_end(&self, back: bool) -> u32
        ensures { result ≡ speaking_end self.now back }
    {
        if back { self.one } else { self.two }
    }
}

/// Equal places.
pub(crate) fn copy_places(alloc: Global, places: &[ShownPlace]) -> Result<Vec<ShownPlace>, Memory>
    ensures { IfOk result (λ copies. copies.items ≡ places.now) }
{
    let mut copies = Vec::new(alloc);
    for place in places {
        copies.push(place.copy())?;
    }
    Ok(copies)
}

/// Equal links.
pub(crate) fn copy_links(alloc: Global, links: &[ShownLink]) -> Result<Vec<ShownLink>, Memory>
    ensures { IfOk result (λ copies. copies.items ≡ links.now) }
{
    let mut copies = Vec::new(alloc);
    for link in links {
        copies.push(link.copy())?;
    }
    Ok(copies)
}

/// The link of a number is closed, where there is one.
pub(crate) fn close_link(links: &mut Vec<ShownLink>, number: u32)
    ensures { links.new.items
        ≡ at_nth number (λ l. record l { is_open = false }) links.old.items }
{
    let Some(place) = place_of_number(links.as_slice(), number) else {
        return;
    };
    links[place].close();
}
