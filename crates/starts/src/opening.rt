// Opening: the words that it writes to the lent store.
ghost use Rattle.std.specs.Prelude.{◌≡◌, ◌≤◌};
ghost use Rattle.calendar.specs.rules.Opening.{open_word, open_store};
ghost use Rattle.words.specs.Kept.{Kept};

use arrival::Shape;
use words::store::Store;
use words::word::Word;
use words::{layout_words, word};

// The word that opening writes at address i.
fn open_word(shape: Shape, i: usize) -> u64
    requires { (1 ≤ shape.nodes) × (shape.nodes ≤ 4096) × (shape.buckets ≤ 256) }
    ensures { result ≡ open_word shape i }
{
    let heads = word::HEADS as usize;
    if i == Word::LastNode.number() {
        shape.nodes - 1
    } else if (heads..heads + shape.buckets as usize).contains(&i) {
        2 * shape.nodes
    } else {
        0
    }
}

// Every word of the layout is written, whatever it held; what lies beyond is left.
pub fn open_store(store: &mut Store<'_>)
    requires le_nodes { 1 ≤ store.old.shape.nodes }
    ensures kept { Kept store.old store.new }
    ensures opened { store.new.words.now ≡ open_store store.old.shape store.old.words.now }
{
    let shape = store.shape;
    for i in 0..layout_words(shape) {
        store.words[i] = open_word(shape, i);
    }
}
