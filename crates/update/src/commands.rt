// A list, cut into its commands.

ghost use Rattle.std.specs.Prelude.{◌≡◌};
ghost use Rattle.std.specs.Iterator.{YieldsFirstRef, item_count};
ghost use Rattle.tag.specs.TagType.{pieces};

use crate::Update;

// The commands of a list. A rest that is too short for a command is the last one.
#[derive(Drop)]
pub struct Commands<'a, 'u, U> {
    update: &'u U,
    rest: &'a [u8],
}

impl<'a, 'u, U: Update> Commands<'a, 'u, U> {
    pub fn new(update: &'u U, list: &'a [u8]) -> Commands<'a, 'u, U>
        ensures update { result.update.now ≡ update.now }
        ensures rest { result.rest.now ≡ list.now }
    {
        Commands { update, rest: list }
    }
}

impl<'a, 'u, U: Update> Iterator for Commands<'a, 'u, U> {
    type Item = &'a [u8];

    ghost next_gives = { YieldsFirstRef (λ s. pieces (U.tag_type s.update.now) (U.image s.update.now) s.rest.now) };

    ghost remaining = { item_count (λ s. pieces (U.tag_type s.update.now) (U.image s.update.now) s.rest.now) };

    fn next(&mut self) -> Option<&'a [u8]> {
        let rest = self.rest;
        if rest.is_empty() {
            return None;
        }
        let size = self.update.span(rest).min(rest.len());
        let (command, after) = rest.split_at(size);
        self.rest = after;
        Some(command)
    }
}
