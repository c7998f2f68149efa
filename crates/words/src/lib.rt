// The lent store by place: reading and writing one word. Only these functions know addresses.
#![tactic(auto)]

ghost use Rattle.std.specs.Prelude.{◌≡◌, ◌+◌, ◌-◌, ◌*◌, ◌<◌, ◌≤◌};
ghost use Rattle.arrival.specs.Keys.{key_of};
ghost use Rattle.calendar.specs.rules.Layout.{word, cell, field, address, layout, read, write, item_at};
ghost use Rattle.words.specs.Numbers.{word_number, field_number};
ghost use Rattle.words.specs.Kept.{Kept};

use arrival::{Item, Key, Shape};
use field::Field;
use store::{Store, View};
use word::Word;

pub mod field;
pub mod replies;
pub mod store;
pub mod word;

// How many words the layout has.
pub fn layout_words(shape: Shape) -> usize
    requires { (shape.buckets ≤ 256) × (shape.nodes ≤ 4096) }
    ensures { result ≡ layout shape }
{
    (word::HEADS + shape.buckets + word::NODE_WORDS * shape.nodes) as usize
}

// A cell's address: the heads follow the first words, and a node's link is the first of its words.
fn cell_address(buckets: u64, p: u64) -> usize
    requires { (p < 65536) × (buckets ≤ 256) }
    ensures { result ≡ 3 + p + 7 * (p - buckets) }
{
    if p < buckets {
        (word::HEADS + p) as usize
    } else {
        (word::HEADS + buckets + word::NODE_WORDS * (p - buckets)) as usize
    }
}

// The address of a word of node n.
fn field_address(shape: Shape, f: Field, n: u64) -> usize
    requires { (n < shape.nodes) × (shape.nodes ≤ 4096) × (shape.buckets ≤ 256) }
    ensures { result ≡ 3 + shape.buckets + 8 * n + field_number f }
{
    (word::HEADS + shape.buckets + word::NODE_WORDS * n + f.number()) as usize
}

#[tactic(auto, unfolding(calendar::specs::rules::Layout::read, calendar::specs::rules::Layout::write, calendar::specs::rules::Layout::address))]
impl View<'_> {
    // One of the first three words.
    pub fn word(&self, k: Word) -> u64
        ensures { result ≡ read self.now.shape self.now.words.now (word (word_number k)) }
    {
        let at = k.number();
        self.words[at]
    }

    // A head or a node's link.
    pub fn cell(&self, p: u64) -> u64
        requires { p < self.now.shape.buckets + self.now.shape.nodes }
        ensures { result ≡ read self.now.shape self.now.words.now (cell p) }
    {
        self.words[cell_address(self.shape.buckets, p)]
    }

    // A word of node n.
    pub fn field(&self, f: Field, n: u64) -> u64
        requires { n < self.now.shape.nodes }
        ensures { result ≡ read self.now.shape self.now.words.now (field (field_number f) n) }
    {
        self.words[field_address(self.shape, f, n)]
    }

    // The key of the arrival in node n.
    pub fn key(&self, n: u64) -> Key
        requires { n < self.now.shape.nodes }
        ensures { result ≡ key_of (item_at self.now.shape self.now.words.now n) }
    {
        Key {
            time: self.field(Field::Time, n),
            order: self.field(Field::Order, n),
            ticket: self.field(Field::Ticket, n),
        }
    }

    // The arrival in node n, with its ticket.
    pub fn item(&self, n: u64) -> Item
        requires { n < self.now.shape.nodes }
        ensures { result ≡ item_at self.now.shape self.now.words.now n }
    {
        let key = self.key(n);
        Item {
            time: key.time,
            path: self.field(Field::Path, n),
            order: key.order,
            distance: self.field(Field::Distance, n),
            ticket: key.ticket,
        }
    }
}

#[tactic(auto, unfolding(calendar::specs::rules::Layout::read, calendar::specs::rules::Layout::write, calendar::specs::rules::Layout::address))]
impl Store<'_> {
    // To read from it.
    pub fn view(&self) -> View<'_>
        ensures { (result.shape ≡ self.now.shape) × (result.words.now ≡ self.now.words.now) }
    {
        View {
            shape: self.shape,
            words: self.words,
        }
    }

    pub fn set_word(&mut self, k: Word, v: u64)
        ensures kept { Kept self.old self.new }
        ensures written { self.new.words.now ≡ write self.old.shape self.old.words.now (word (word_number k)) v }
    {
        self.words[k.number()] = v;
    }

    pub fn set_cell(&mut self, p: u64, v: u64)
        requires { p < self.old.shape.buckets + self.old.shape.nodes }
        ensures kept { Kept self.old self.new }
        ensures written { self.new.words.now ≡ write self.old.shape self.old.words.now (cell p) v }
    {
        self.words[cell_address(self.shape.buckets, p)] = v;
    }

    pub fn set_field(&mut self, f: Field, n: u64, v: u64)
        requires { n < self.old.shape.nodes }
        ensures kept { Kept self.old self.new }
        ensures written { self.new.words.now ≡ write self.old.shape self.old.words.now (field (field_number f) n) v }
    {
        self.words[field_address(self.shape, f, n)] = v;
    }
}
