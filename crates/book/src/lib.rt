// The book of unanswered requests: which sequence numbers are awaited, the command asked under each, and the tick at which it was asked. A caller
// keeps the book and lends what a call needs of it; what a call is not lent, it cannot change. It leans on crate free_number for the number of a
// request, on crate command for which commands are known, and on crate tick for how old a request is. (Crate awaited: theorems of any run of its calls.)
// Document 01, "The book of unanswered requests", with refusals 3, 9 and 10; document 02, W-210, with 17, and W-205.
#![tactic(auto)]

ghost use Rattle.std.specs.Prelude.{◌≡◌};
ghost use Rattle.book.specs.Ticks.{timed, fresh_timed, Asks, Replies, GivesUp};

pub use free_number::Book;
use free_number::VACANT;
use refusal::Refusal;

// A book with the tick at which each request was asked. Where nothing is held under a number, its tick says nothing.
#[derive(Clone, Copy)]
pub struct Timed {
    pub book: Book,
    pub ticks: [u32; 256],
}

// Nothing is held, and the first number that it gives is 0.
pub fn fresh() -> Timed
    ensures { result ≡ fresh_timed }
{
    Timed {
        book: Book {
            asked: [VACANT; 256],
            last: 255,
        },
        ticks: [0; 256],
    }
}

// Asks with a command at a tick: the number given is awaited from then on, with that tick, and is the last. Where it is refused, with 3 for an
// unknown command, 17 for a retired one or 9 where all numbers are awaited, the book is as it was, ticks too.
pub fn ask(
    asked: &mut [u8; 256],
    last: &mut u8,
    ticks: &mut [u32; 256],
    command: u8,
    tick: u32,
) -> Result<u8, Refusal>
    ensures { Asks (timed asked.old last.old ticks.old) command tick result (timed asked.new last.new ticks.new) }
{
    let n = free_number::number_for(asked, *last, command)?;
    asked[n as usize] = command;
    ticks[n as usize] = tick;
    *last = n;
    Ok(n)
}

// Takes a reply's sequence number: it is free from then on, and its command is the answer, a retired one too. Where it is refused, with 10
// for a number that is not awaited, the book is as it was.
pub fn reply(asked: &mut [u8; 256], number: u8) -> Result<u8, Refusal>
    ensures { Replies asked.old number result asked.new }
{
    let at = number as usize;
    let command = asked[at];
    if !command::known(command) {
        return Err(Refusal::NotAwaited);
    }
    asked[at] = VACANT;
    Ok(command)
}

// Gives up each request that was asked longer ago than a limit, by the tick now: its number is free from then on. No other changes. The
// answer is how many these were.
pub fn give_up(asked: &mut [u8; 256], ticks: &[u32; 256], clock: u32, limit: u32) -> u16
    ensures { GivesUp asked.old ticks.now clock limit result asked.new }
{
    let mut count: u16 = 0;
    // No `zip` of the two arrays: of entries that are written through one the prover knows nothing afterwards.
    for (n, &tick) in ticks.iter().enumerate() {
        if tick::over(clock, tick, limit) && command::known(asked[n]) {
            asked[n] = VACANT;
            count += 1;
        }
    }
    count
}
