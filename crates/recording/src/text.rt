// What a program over a recording writes: each function stores its text from a place on in the bytes
// lent, and gives the place after it.
ghost use Rattle.std.specs.Prelude.{◌≡◌, ◌+◌, ◌*◌, ◌≤◌, length};
ghost use Rattle.recording.specs.Text.{written_of, put, decimal_of, ended_of, line_of, lines_of, field_of, closing_of, refused_of};

// What the closing lines tell: dibits delivered, those of them under lock, whether the carrier is
// locked now, and samples that were overloaded.
#[derive(Clone, Copy)]
pub struct Totals {
    pub symbols: u64,
    pub locked: u64,
    pub lock: bool,
    pub overload: u64,
}

// The bytes lent, and the place in them where the next one goes.
#[derive(Drop)]
struct Text<'a> {
    out: &'a mut [u8],
    at: usize,
}

impl<'a> Text<'a> {
    // A text as it stands.
    #[tactic(auto, using(crate::specs::TextLaws::put_part))]
    fn put(&mut self, text: &[u8])
        requires { self.old.at + length text.now ≤ length self.old.out.now }
        ensures lent { self.new.out.ghost_name ≡ self.old.out.ghost_name }
        ensures same { written_of self.new.at self.new.out.now ≡ put text.now (written_of self.old.at self.old.out.now) }
    {
        let end = self.at + text.len();
        self.out[self.at..end].copy_from_slice(text);
        self.at = end;
    }

    // A number in decimal and the character that ends it.
    fn ended(&mut self, n: u64, end: u8)
        requires { self.old.at + length (ended_of n end) ≤ length self.old.out.now }
        ensures lent { self.new.out.ghost_name ≡ self.old.out.ghost_name }
        ensures same { written_of self.new.at self.new.out.now ≡ put (ended_of n end) (written_of self.old.at self.old.out.now) }
    {
        let mut digits = [0u8; 20];
        let k = io::decimal(n, &mut digits);
        self.put(&digits[..k]);
        self.put(&[end]);
    }

    // A byte in decimal and the character that ends it.
    fn byte(&mut self, n: u8, end: u8)
        requires { self.old.at + 4 ≤ length self.old.out.now }
        ensures lent { self.new.out.ghost_name ≡ self.old.out.ghost_name }
        ensures same { written_of self.new.at self.new.out.now ≡ put (ended_of n end) (written_of self.old.at self.old.out.now) }
        ensures near { self.new.at ≤ self.old.at + 4 }
        ensures kept { length self.new.out.now ≡ length self.old.out.now }
    {
        self.ended(u64::from(n), end);
    }

    // A word and a number on a line of their own.
    fn field(&mut self, word: &[u8], n: u64)
        requires { self.old.at + (length word.now + 21) ≤ length self.old.out.now }
        ensures lent { self.new.out.ghost_name ≡ self.old.out.ghost_name }
        ensures same { written_of self.new.at self.new.out.now ≡ put (field_of word.now n) (written_of self.old.at self.old.out.now) }
        ensures near { self.new.at ≤ self.old.at + (length word.now + 21) }
        ensures kept { length self.new.out.now ≡ length self.old.out.now }
    {
        self.put(word);
        self.ended(n, b'\n');
    }
}

// A dibit's line: value, first reliability, second.
pub fn line(value: u8, first: u8, second: u8, out: &mut [u8], at: usize) -> usize
    requires { at + 12 ≤ length out.old }
    ensures same { written_of result out.new ≡ put (line_of value first second) (written_of at out.old) }
    ensures near { result ≤ at + 12 }
    ensures kept { length out.new ≡ length out.old }
{
    let mut text = Text { out, at };
    text.byte(value, b' ');
    text.byte(first, b' ');
    text.byte(second, b'\n');
    text.at
}

// The lines of the first n dibits, each with two reliabilities.
pub fn lines(dibits: &[u8], reliabilities: &[u8], n: usize, out: &mut [u8], at: usize) -> usize
    requires dibits_there { n ≤ length dibits.now }
    requires reliabilities_there { 2 * n ≤ length reliabilities.now }
    requires room { at + 12 * n ≤ length out.old }
    ensures same { written_of result out.new ≡ put (lines_of dibits.now reliabilities.now n) (written_of at out.old) }
    ensures near { result ≤ at + 12 * n }
    ensures kept { length out.new ≡ length out.old }
{
    let mut after = at;
    for i in 0..n {
        after = line(
            dibits[i],
            reliabilities[2 * i],
            reliabilities[2 * i + 1],
            out,
            after,
        );
    }
    after
}

// The four closing lines.
pub fn closing(t: Totals, out: &mut [u8], at: usize) -> usize
    requires { at + 120 ≤ length out.old }
    ensures same { written_of result out.new ≡ put (closing_of t) (written_of at out.old) }
    ensures near { result ≤ at + 120 }
    ensures kept { length out.new ≡ length out.old }
{
    let mut text = Text { out, at };
    text.field(b"symbols ", t.symbols);
    text.field(b"locked ", t.locked);
    text.field(b"lock ", u64::from(t.lock));
    text.field(b"overload ", t.overload);
    text.at
}

// The line of a refusal.
pub fn refused(n: u32, out: &mut [u8], at: usize) -> usize
    requires { at + 30 ≤ length out.old }
    ensures same { written_of result out.new ≡ put (refused_of n) (written_of at out.old) }
    ensures near { result ≤ at + 30 }
    ensures kept { length out.new ≡ length out.old }
{
    let mut text = Text { out, at };
    text.field(b"refused ", u64::from(n));
    text.at
}
