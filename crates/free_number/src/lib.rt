// The sequence number for a request: the first free one after the last given. It leans on crate command for which commands are known and which
// are retired. Document 01, "The book of unanswered requests", with refusals 3 and 9; document 02, W-210, with 17.
#![tactic(auto)]

ghost use Rattle.std.specs.Prelude.{◌≡◌};
ghost use Rattle.refusal.specs.Answer.{said};
ghost use Rattle.free_number.specs.Number.{book, first_free, number_for};

use refusal::Refusal;

#[derive(Clone, Copy)]
pub struct Book {
    // The command asked under each sequence number. A number that is no known command counts as nothing held.
    pub asked: [u8; 256],
    // The last sequence number given.
    pub last: u8,
}

// What stands for nothing held where it is written.
pub const VACANT: u8 = 0;

// The first free number after the last one given, the last one itself at the end; 9 where there is none. It looks at no entry
// past the free one.
fn first_free(asked: &[u8; 256], last: u8) -> Result<u8, Refusal>
    ensures { said result ≡ first_free asked.now last 256 }
{
    let mut n = last;
    for _ in 0..asked.len() {
        n = n.wrapping_add(1);
        if !command::known(asked[n as usize]) {
            return Ok(n);
        }
    }
    Err(Refusal::NoNumberFree)
}

// The number for a request with this command. One that is not known is 3 and a retired one 17, also where no number is free.
pub fn number_for(asked: &[u8; 256], last: u8, command: u8) -> Result<u8, Refusal>
    ensures { said result ≡ number_for (book asked.now last) command }
{
    if !command::known(command) {
        return Err(Refusal::UnknownCommand);
    }
    if command::retired(command) {
        return Err(Refusal::Retired);
    }
    // Nearly always nothing stands under the next number: that is told without a search.
    let next = last.wrapping_add(1);
    if asked[next as usize] == VACANT {
        return Ok(next);
    }
    first_free(asked, last)
}
