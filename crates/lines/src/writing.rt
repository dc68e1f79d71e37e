// Text put into a lent slice, piece after piece.
ghost use Rattle.std.specs.Prelude.{◌≡◌, ◌+◌, ◌*◌, ◌≤◌, length, take};
ghost use Rattle.lines.specs.Writing.{decimal, named, refused_text, spaced, row};
ghost use Rattle.lines.specs.Pages.{HasRoom, Puts};

const NEWLINE: u8 = b'\n';

// A lent slice whose front is written. std's writers may fail; here callers show that there is room, so nothing fails.
#[derive(Drop)]
pub struct Page<'a> {
    pub out: &'a mut [u8],
    pub len: usize,
}

impl<'a> Page<'a> {
    pub fn new(out: &'a mut [u8]) -> Page<'a>
        ensures same { result.out.ghost_name ≡ out.entry.ghost_name }
        ensures lent { result.out.now ≡ out.old }
        ensures blank { result.len ≡ 0 }
    {
        Page { out, len: 0 }
    }

    // What was written, lent on from the slice.
    pub fn written(self) -> &'a [u8]
        requires { self.len ≤ length self.out.now }
        ensures { result.now ≡ take self.entry.len self.entry.out.now }
    {
        let Page { out, len } = self;
        &out[..len]
    }

    #[tactic(auto, using(crate::proofs::Runs::part_sets))]
    pub fn put(&mut self, bytes: &[u8])
        requires { HasRoom self.old (length bytes.now) }
        ensures { Puts self.old self.new bytes.now }
    {
        let end = self.len + bytes.len();
        self.out[self.len..end].copy_from_slice(bytes);
        self.len = end;
    }

    // The digits of a number, the last of them after all others.
    #[tactic(auto, using(crate::proofs::Runs::then, crate::proofs::Decimals::spellings))]
    fn put_digits(&mut self, number: u32)
        requires { HasRoom self.old (length (decimal number)) }
        ensures { Puts self.old self.new (decimal number) }
    {
        if number < 10 {
            return self.put(&[b'0' + number as u8]);
        }
        self.put_digits(number / 10);
        self.put(&[b'0' + (number % 10) as u8]);
    }

    #[tactic(auto, using(crate::proofs::Decimals::decimal_most))]
    pub fn put_number(&mut self, number: u32)
        requires { HasRoom self.old 10 }
        ensures puts { Puts self.old self.new (decimal number) }
        ensures most { self.new.len ≤ self.old.len + 10 }
    {
        self.put_digits(number);
    }

    // A name, a number and a newline.
    pub fn put_named(&mut self, name: &[u8], number: u32)
        requires { HasRoom self.old (length name.now + 11) }
        ensures puts { Puts self.old self.new (named name.now number) }
        ensures most { self.new.len ≤ self.old.len + length name.now + 11 }
    {
        self.put(name);
        self.put_number(number);
        self.put(&[NEWLINE]);
    }

    // The line of a refusal.
    #[tactic(auto, unfolding(crate::specs::Writing::refused_text))]
    pub fn put_refused(&mut self, number: u32)
        requires { HasRoom self.old 19 }
        ensures puts { Puts self.old self.new (refused_text number) }
        ensures most { self.new.len ≤ self.old.len + 19 }
    {
        self.put_named(b"refused ", number);
    }

    // A space and a number, for each of them.
    fn put_spaced(&mut self, numbers: &[u32])
        requires { HasRoom self.old (11 * length numbers.now) }
        ensures puts { Puts self.old self.new (spaced numbers.now) }
        ensures most { self.new.len ≤ self.old.len + 11 * length numbers.now }
    {
        for &number in numbers {
            self.put(b" ");
            self.put_number(number);
        }
    }

    // A name, the numbers, each after a space, and a newline.
    pub fn put_row(&mut self, name: &[u8], numbers: &[u32])
        requires { HasRoom self.old (length name.now + 11 * length numbers.now + 1) }
        ensures puts { Puts self.old self.new (row name.now numbers.now) }
        ensures most { self.new.len ≤ self.old.len + length name.now + 11 * length numbers.now + 1 }
    {
        self.put(name);
        self.put_spaced(numbers);
        self.put(&[NEWLINE]);
    }
}
