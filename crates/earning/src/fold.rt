// Leaving out, from the last entry to the first: a run of entries at once, longer after each that goes, and shorter after each that does not. What
// stays is what leaving out one by one leaves, since more entries say more.
ghost use Rattle.std.specs.Prelude.{◌≡◌, ◌≤◌, ◌<◌, ◌*◌, ◌+◌, ◌-◌, ◌||◌, ℕ, List, cond, eqb};
ghost use Rattle.blocks.specs.Entries.{entries_of};
ghost use Rattle.blocks.specs.declared.Entry.{Entry};
ghost use Rattle.narrow.specs.Keeping.{keep_from, without_run};
ghost use Rattle.pairs.specs.Pairs.{under};
ghost use Rattle.earning.specs.code.Tried.{Grows, Listed, Open, Turned, enough, set_of};

use crate::tried::Tried;
use crate::trying::Trial;
use slots::Asked;

// Where leaving out stands: entries up to `to` are not decided, so many of them are tried next at once, and whether one that stays is being looked for
// among those that were tried together.
#[derive(Clone, Copy)]
pub(crate) struct Turn {
    to: usize,
    run: usize,
    searching: bool,
}

impl Turn {
    // What follows a trial of so many entries, by whether they go. Any number to try next is right: it only tells how many trials it takes.
    fn after(self, run: usize, goes: bool) -> Self
        requires { (1 ≤ run) × (run ≤ self.to) × (run ≤ self.run) × (run ≤ 1008) }
        ensures { (1 ≤ result.run) × (result.run ≤ 2016) × (result.to ≡ cond (goes || eqb run 1) (self.to - run) self.to)
            × (4096 * result.to + result.run < 4096 * self.to + self.run) }
    {
        let to = if goes || run == 1 {
            self.to - run
        } else {
            self.to
        };
        if goes && !self.searching {
            return Turn {
                to,
                run: 2 * run,
                searching: false,
            };
        }
        Turn {
            to,
            run: (run / 2).max(1),
            searching: goes || run != 1,
        }
    }
}

// Leaves out a run.
fn leave_out(kept: &mut [bool; 1009], from: usize, to: usize)
    requires { (from ≤ to) × (to ≤ 1008) }
    ensures { (k : ℕ) → set_of kept.new k ≡ without_run from to (set_of kept.old) k }
{
    for k in from + 1..to + 1 {
        kept[k] = false;
    }
}

impl Trial {
    // Leaves out a run of entries of which none is decided, if what is then left is still contained.
    fn leaves(
        &mut self,
        service: Asked<'_>,
        tried: Tried<'_>,
        kept: &mut [bool; 1009],
        from: usize,
        to: usize,
    ) -> bool
        requires { (from ≤ to) × (to ≤ tried.count) }
        ensures { (pre es : List Entry) → Listed pre es tried.entry.entries.now tried.entry.before tried.entry.count
            → Open es to (set_of kept.old)
            → (result ≡ enough (under service.entry.exclusions.pairs.now) pre es (entries_of service.entry.bytes.now) (without_run from to (set_of kept.old)))
            × ((k : ℕ) → set_of kept.new k ≡ cond result (without_run from to (set_of kept.old) k) (set_of kept.old k)) }
    {
        leave_out(kept, from, to);
        if self.passes(service, tried, kept) {
            return true;
        }
        tried.put_back(kept, from, to);
        false
    }

    // Tries a run of entries. An 'every', which says nothing by itself, is not tried alone.
    fn turn(
        &mut self,
        service: Asked<'_>,
        tried: Tried<'_>,
        kept: &mut [bool; 1009],
        at: Turn,
    ) -> Turn
        requires { (1 ≤ at.to) × (at.to ≤ tried.count) × (1 ≤ at.run) × (at.run ≤ 2016) }
        ensures next { (1 ≤ result.run) × (result.run ≤ 2016) × (result.to ≤ at.to) × (4096 * result.to + result.run < 4096 * at.to + at.run) }
        ensures goes { (pre es : List Entry) → Listed pre es tried.entry.entries.now tried.entry.before tried.entry.count
            → Grows (enough (under service.entry.exclusions.pairs.now) pre es (entries_of service.entry.bytes.now)) → Open es at.to (set_of kept.old)
            → Turned (enough (under service.entry.exclusions.pairs.now) pre es (entries_of service.entry.bytes.now)) es at.to (set_of kept.old) result.to (set_of kept.new) }
    {
        let run = at.run.min(at.to);
        if run == 1 && !kept[at.to] {
            return Turn {
                to: at.to - 1,
                run: at.run,
                searching: at.searching,
            };
        }
        let goes = self.leaves(service, tried, kept, at.to - run, at.to);
        at.after(run, goes)
    }

    // Tries all entries, the last first.
    pub(crate) fn fold(&mut self, service: Asked<'_>, tried: Tried<'_>, kept: &mut [bool; 1009])
        ensures { (pre es : List Entry) → Listed pre es tried.entry.entries.now tried.entry.before tried.entry.count
            → Grows (enough (under service.entry.exclusions.pairs.now) pre es (entries_of service.entry.bytes.now)) → Open es tried.entry.count (set_of kept.old)
            → set_of kept.new ≡ keep_from (enough (under service.entry.exclusions.pairs.now) pre es (entries_of service.entry.bytes.now)) tried.entry.count (set_of kept.old) }
    {
        let mut at = Turn {
            to: tried.count,
            run: 1,
            searching: false,
        };
        // `while` and no `for`: how many turns there are depends on what goes.
        while 0 < at.to {
            at = self.turn(service, tried, kept, at);
        }
    }
}
