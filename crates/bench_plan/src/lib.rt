// The check of a filter plan as the bench's answer. docs/BENCH.md, "A filter plan". It leans on crates lent and text, which put the texts, and on crate
// filter_plan for what is said.
#![tactic(auto)]

ghost use Rattle.lent.specs.All.{PutsAll};
ghost use Rattle.filter_plan.specs.Said.{said_verdict};
ghost use Rattle.bench_plan.specs.Told.{verdict_texts};

use filter_plan::Verdict;

// What the check of a plan answers: the one refusal with a field.
pub fn say(out: &mut [u8], at: usize, v: Verdict) -> usize
    ensures { PutsAll (verdict_texts (said_verdict v)) out.old at result out.new }
{
    match v {
        Verdict::Yes => lent::word(out, at, b"0 yes"),
        Verdict::Bad(bad) => {
            let e = text::decimal(out, at, u64::from(bad.refusal.number()));
            let f = lent::word(out, e, b" request ");
            text::decimal(out, f, bad.request as u64)
        }
        Verdict::Hidden(j) => {
            let e = lent::word(out, at, b"0 hidden ");
            text::decimal(out, e, j as u64)
        }
    }
}
