// Decimal numbers of a text, one after another.
ghost use Rattle.std.specs.Prelude.{◌≡◌, ◌≤◌, ◌++◌, length, IfSome};
ghost use Rattle.std.specs.Option.{option_map};
ghost use Rattle.std.proofs.lemmas.List.Edits.{sets};
ghost use Rattle.vectors.specs.Numbers.{next_at, numbers_from, read_to, spelled};

// What is still unread of a text. A reading that failed isn't gone on with, so where it ends is left open.
#[derive(Drop)]
pub struct Reader<'a> {
    pub text: &'a [u8],
}

impl<'a> Reader<'a> {
    // The next number, past anything that is no digit.
    pub fn next(&mut self) -> Option<u32>
        ensures { option_map (λ value. (value, self.new.text.now)) result ≡ next_at self.old.text.now }
    {
        let first = self.text.iter().position(u8::is_ascii_digit)?;
        let digits = &self.text[first..];
        let end = digits.iter().position(|b| !b.is_ascii_digit());
        let (part, rest) = digits.split_at(end.unwrap_or(digits.len()));
        self.text = rest;
        lines::reading::number_of(part)
    }

    // Fills a slice with the next numbers.
    #[tactic(auto, using(crate::proofs::Readings::filling))]
    pub fn fill(&mut self, into: &mut [u32]) -> Option<()>
        ensures rest { option_map (λ _. self.new.text.now) result ≡ read_to (length into.old) self.old.text.now }
        ensures filled { into.new ≡ sets into.old 0 (numbers_from (length into.old) self.old.text.now) }
    {
        for number in into.iter_mut() {
            *number = self.next()?;
        }
        Some(())
    }

    // A room whose first numbers are the next ones.
    #[tactic(auto, using(crate::proofs::Readings::filled_front))]
    pub fn filled<const N: usize>(&mut self, mut room: [u32; N], count: usize) -> Option<[u32; N]>
        requires { count ≤ length room }
        ensures rest { option_map (λ _. self.new.text.now) result ≡ read_to count self.old.text.now }
        ensures filled { IfSome result (λ filled. filled ≡ sets room.entry 0 (numbers_from count self.old.text.now)) }
    {
        self.fill(&mut room[..count])?;
        Some(room)
    }

    // Passes the next numbers, if they are these words.
    #[tactic(auto, using(crate::proofs::Readings::same_words))]
    pub fn same(&mut self, words: &[u32]) -> Option<()>
        ensures { option_map (λ _. self.new.text.now) result ≡ spelled self.old.text.now words.now }
    {
        for &word in words {
            if self.next()? != word {
                return None;
            }
        }
        Some(())
    }

    // The words of both, one after the other.
    #[tactic(auto, using(crate::proofs::Readings::spelled_append))]
    pub fn both_same(&mut self, first: &[u32], second: &[u32]) -> Option<()>
        ensures { option_map (λ _. self.new.text.now) result ≡ spelled self.old.text.now (first.now ++ second.now) }
    {
        self.same(first)?;
        self.same(second)
    }
}
