// The places of faces, and the numbers of faces in scripts.
ghost use Rattle.std.specs.Prelude.{◌≡◌, ℕ, ◌+◌, ◌-◌, ◌<◌, ◌++◌, [], ◌∷◌, length, take};
ghost use Rattle.std.specs.Prelude.{IfOk, OnErr, OnOk};
ghost use Rattle.zt_model.specs.Places.{number_from};
ghost use Rattle.zt_link_queues.specs.Found.{AreNumbers, AreRising, HasNumber, LacksNumber};
ghost use Rattle.zt_link_queues.specs.Found.{faces_at, number_in};

use crate::faces::{FaceNumbers, NumberedFaces};
use std::alloc::Global;
use std::marker::Model;
use zt_keys::Memory;

/// Where a face is: its gateway, and its number there.
#[derive(Drop)]
pub struct PlaceState {
    gateway: u32,
    face: u32,
}

impl Model for PlaceState {
    ghost use Rattle.zt_model.specs.Places.{Place};

    ghost Value = { Place };

    ghost view = { λ p. record { gateway = p.gateway; face = p.face } };
}

impl PlaceState {
    /// The gateway.
    pub fn gateway(&self) -> u32
        ensures { result ≡ self.now.gateway }
    {
        self.gateway
    }

    /// The number there.
    pub fn face(&self) -> u32
        ensures { result ≡ self.now.face }
    {
        self.face
    }
}

/// The places of the faces of all gateways, which are numbered from 1 in order of making.
#[derive(Drop)]
pub struct Places {
    places: Vec<PlaceState>,
    // The faces of each gateway with their numbers, by its number: gateways are numbered from 1 in
    // order of making. Of equal places the first counts.
    numbers: Vec<NumberedFaces>,
}

impl Model for Places {
    ghost use Rattle.std.specs.Prelude.{List};
    ghost use Rattle.zt_model.specs.Places.{Place};
    ghost use Rattle.zt_link_queues.specs.Found.{AreNumbers};

    ghost Value = { List Place };

    ghost view = { λ p. p.places.items };

    ghost invariant = { λ p. AreNumbers p.numbers.items p.places.items };
}

// The number of the place that is put next. That it has none counts as out of memory.
fn next_number(count: usize) -> Result<u32, Memory>
    ensures { IfOk result (λ number. number ≡ count + 1) }
{
    if count >= u32::MAX as usize {
        return Err(Memory);
    }
    Ok(count as u32 + 1)
}

// The faces of a gateway with their numbers.
fn find_faces(numbers: &[NumberedFaces], gateway: u32) -> &[(u32, u32)]
    ensures pairs { result.now ≡ faces_at gateway numbers.now }
    ensures in_order { AreRising result.now }
{
    match numbers.get(gateway as usize) {
        None => &[],
        Some(faces) => faces.as_slice(),
    }
}

// There is room for a gateway's faces. After an error no face is lost.
fn reach(alloc: Global, numbers: &mut Vec<NumberedFaces>, gateway: u32) -> Result<(), Memory>
    ensures there { OnOk result (gateway < length numbers.new.items) }
    ensures same { (g : ℕ) → faces_at g numbers.new.items ≡ faces_at g numbers.old.items }
{
    while numbers.len() <= gateway as usize {
        numbers.push(NumberedFaces::new(alloc))?;
    }
    Ok(())
}

// A face has a number, where it had none. After an error all stays.
fn put_number(
    alloc: Global,
    numbers: &mut Vec<NumberedFaces>,
    gateway: u32,
    face: u32,
    number: u32,
) -> Result<(), Memory>
    ensures ok { OnOk result (HasNumber gateway face number numbers.old.items numbers.new.items) }
    ensures err { OnErr result
        ((g : ℕ) → faces_at g numbers.new.items ≡ faces_at g numbers.old.items) }
{
    reach(alloc, numbers, gateway)?;
    numbers[gateway as usize].put(face, number)
}

// A face has a number no more, where it was this one.
fn drop_number(numbers: &mut Vec<NumberedFaces>, gateway: u32, face: u32, number: usize)
    ensures { LacksNumber gateway face number numbers.old.items numbers.new.items }
{
    if (gateway as usize) < numbers.len() {
        numbers[gateway as usize].remove(face, number);
    }
}

// One more place. After an error all stays.
fn push_in(
    places: &mut Vec<PlaceState>,
    numbers: &mut Vec<NumberedFaces>,
    gateway: u32,
    face: u32,
) -> Result<(), Memory>
    requires { AreNumbers numbers.old.items places.old.items }
    ensures numbers { AreNumbers numbers.new.items places.new.items }
    ensures ok { OnOk result (places.new.items
        ≡ places.old.items ++ record { gateway = gateway; face = face } ∷ []) }
    ensures err { OnErr result (places.new.items ≡ places.old.items) }
{
    let number = next_number(places.len())?;
    places.push(PlaceState { gateway, face })?;
    let alloc = *places.allocator();
    match put_number(alloc, numbers, gateway, face, number) {
        Ok(()) => Ok(()),
        Err(error) => {
            let _ = places.pop();
            Err(error)
        }
    }
}

// The last place goes.
fn pop_in(places: &mut Vec<PlaceState>, numbers: &mut Vec<NumberedFaces>)
    requires { AreNumbers numbers.old.items places.old.items }
    ensures numbers { AreNumbers numbers.new.items places.new.items }
    ensures places { places.new.items ≡ take (length places.old.items - 1) places.old.items }
{
    let number = places.len();
    if let Some(place) = places.pop() {
        drop_number(numbers, place.gateway(), place.face(), number);
    }
}

impl Places {
    /// No places. It takes no memory.
    pub fn new(alloc: Global) -> Self
        ensures { result ≡ [] }
    {
        Places {
            places: Vec::new(alloc),
            numbers: Vec::new(alloc),
        }
    }

    /// The places, in order of number.
    pub fn as_slice(&self) -> &[PlaceState]
        ensures { result.now ≡ self.now }
    {
        self.places.as_slice()
    }

    /// How many places there are.
    pub fn len(&self) -> usize
        ensures { result ≡ length self.now }
    {
        self.places.len()
    }

    /// The faces of a gateway with their numbers in scripts. A look-up, after which each face is
    /// found without another.
    pub fn faces_of(&self, gateway: u32) -> FaceNumbers<'_>
        ensures { (face : ℕ) → number_in face result ≡ number_from 1 gateway face self.now }
    {
        FaceNumbers::new(find_faces(&self.numbers, gateway))
    }

    /// The number in scripts of a gateway's face; 0 where there is none. A look-up.
    pub fn number(&self, gateway: u32, face: u32) -> u32
        ensures { result ≡ number_from 1 gateway face self.now }
    {
        self.faces_of(gateway).number(face)
    }

    /// A place is put behind the others. After an error nothing is changed; that the place has no
    /// number counts as out of memory.
    pub fn push(&mut self, gateway: u32, face: u32) -> Result<(), Memory>
        ensures ok { OnOk result (self.new
            ≡ self.old ++ record { gateway = gateway; face = face } ∷ []) }
        ensures err { OnErr result (self.new ≡ self.old) }
    {
        push_in(&mut self.places, &mut self.numbers, gateway, face)
    }

    /// The last place is taken away again.
    pub fn pop(&mut self)
        ensures { self.new ≡ take (length self.old - 1) self.old }
    {
        pop_in(&mut self.places, &mut self.numbers);
    }
}
