// The lent store, laid out by a shape: what lets its places be read (View) and written (Store).
ghost use Rattle.words.specs.Laid.{Laid};

use arrival::Shape;

// Kept: two types, since none is over both `&` and `&mut`; a Store reads as a View.
#[derive(Clone, Copy)]
pub struct View<'a> {
    pub shape: Shape,
    pub words: &'a [u64],
    ghost laid: { Laid shape words.now },
}

#[derive(Drop)]
pub struct Store<'a> {
    pub shape: Shape,
    pub words: &'a mut [u64],
    ghost laid: { Laid shape words.now },
}
