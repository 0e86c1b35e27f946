// One list for every kind of entry, in places that its caller lends. It never allocates: a list
// whose places are used up refuses the entry and gives it back.
#![tactic(auto)]

ghost use Rattle.std.specs.Prelude.{◌≡◌, ◌≤◌, length};
ghost use Rattle.bounded.specs.Refusals.{list_number};

mod list;

// A list in lent places: its entries are the first `count` of them.
#[derive(Drop)]
pub struct Bounded<'a, T> {
    places: &'a mut [T],
    count: usize,
    ghost inside: { count ≤ length places.now },
}

// What a list refuses.
#[derive(Clone, Copy, PartialEq, Eq, Debug, Drop)]
pub enum ListRefusal<T> {
    // every place is used; this entry found none
    Full(T),
}

impl<T> ListRefusal<T> {
    // The refusal's number, by which texts and programs name it.
    pub fn number(&self) -> u32
        ensures { result ≡ list_number self.now }
    {
        match self {
            ListRefusal::Full(_) => 19,
        }
    }
}
