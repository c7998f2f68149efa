// Lines in a lent buffer, each byte stored at its place.
// Assumes nothing.
ghost use Rattle.std.specs.Prelude.{◌≡◌, ◌∷◌, [], ◌++◌, ◌+◌, ◌-◌, ◌≤◌, ◌<◌, length};
ghost use Rattle.std.proofs.lemmas.List.Edits.{sets};
ghost use Rattle.turn_file.specs.Decimal.{decimal};
ghost use Rattle.turn_file.specs.Lines.{took_line};
ghost use Rattle.turn_file.specs.Buffer.{written, after};

// How many decimal digits a number has.
// Kept: digits by hand, and a function for each kind of line: with the kit's itoa and one function a batch ran 8 per cent more instructions.
fn digit_count(x: u64) -> usize
    ensures { (result ≡ length (decimal x)) × (result ≤ 20) }
{
    let mut count = 1;
    let mut rest = x;
    while 10 <= rest {
        rest /= 10;
        count += 1;
    }
    count
}

// Stores a number of `count` digits, the last one first, and one byte behind it. The position after both.
fn put_number(x: u64, count: usize, behind: u8, out: &mut [u8], at: usize) -> usize
    requires { (count ≡ length (decimal x)) × (at + count < length out.old) }
    ensures { (result ≡ at + count + 1) × (out.new ≡ sets out.old at (decimal x ++ (behind ∷ []))) }
{
    let mut place = at + count;
    let mut rest = x;
    out[place] = behind;
    while 10 <= rest {
        place -= 1;
        out[place] = 48 + (rest % 10) as u8;
        rest /= 10;
    }
    out[at] = 48 + rest as u8;
    at + count + 1
}

// Stores a word.
fn put_word(word: &[u8], out: &mut [u8], at: usize)
    requires { at + length word.now ≤ length out.old }
    ensures { out.new ≡ sets out.old at word.now }
{
    out[at..at + word.len()].copy_from_slice(word);
}

// The line that is a word, with its newline.
pub fn word_line(word: &[u8], out: &mut [u8], at: usize) -> usize
    requires { 0 < length word.now }
    ensures { (result ≡ after out.old at word.now)
        × (out.new ≡ written out.old at word.now) }
{
    let size = word.len();
    if out.len().saturating_sub(at) < size {
        return at;
    }
    put_word(word, out, at);
    at + size
}

// The line of a word, with its space, and a number.
pub fn number_line(word: &[u8], x: u64, out: &mut [u8], at: usize) -> usize
    ensures { (result ≡ after out.old at (word.now ++ (decimal x ++ (10 ∷ []))))
        × (out.new ≡ written out.old at (word.now ++ (decimal x ++ (10 ∷ [])))) }
{
    let first = word.len();
    let count = digit_count(x);
    if out.len().saturating_sub(at) < first + count + 1 {
        return at;
    }
    put_word(word, out, at);
    put_number(x, count, b'\n', out, at + first)
}

// The line of an arrival taken.
pub fn took_line(time: u64, path: u64, order: u64, energy: u64, out: &mut [u8], at: usize) -> usize
    ensures { (result ≡ after out.old at (took_line time path order energy))
        × (out.new ≡ written out.old at (took_line time path order energy)) }
{
    let time_count = digit_count(time);
    let path_count = digit_count(path);
    let order_count = digit_count(order);
    let energy_count = digit_count(energy);
    if out.len().saturating_sub(at) < 9 + time_count + path_count + order_count + energy_count {
        return at;
    }
    put_word(b"took ", out, at);
    let path_at = put_number(time, time_count, b' ', out, at + 5);
    let order_at = put_number(path, path_count, b' ', out, path_at);
    let energy_at = put_number(order, order_count, b' ', out, order_at);
    put_number(energy, energy_count, b'\n', out, energy_at)
}
