//! The work of one worker on its share.
ghost use Rattle.std.specs.Prelude.{◌≡◌, ◌≤◌, ◌<◌, ◌+◌, ℕ, List, Option, [], ◌∷◌, All, IfOk, OnOk, length, map, slice_index_or};
ghost use Rattle.usp_edge.specs.Seats.{SeatGains};
ghost use Rattle.usp_edge.specs.declared.limits.TheConstants.{MAX_HEADS};
ghost use Rattle.usp_script.specs.Script.{IsAsk};
ghost use Rattle.usp_lab.specs.Asking.{HasServed, HoldsHead};
ghost use Rattle.usp_lab.specs.Jobs.{IsDone, IsOwn, IsReady, deed_by, task_by};
ghost use Rattle.usp_lab.specs.Rounds.{Served};
ghost use Rattle.usp_lab.specs.Shares.{AllGain, HasWhole, HasWorked, IsReadyPart, LessBy, part_by, table_of};
ghost use Rattle.usp_lab.specs.Tokens.{carried_token};

use super::share::{Done, Job, Share};
use crate::asking::{Asking, serve_ask};
use crate::{Calm, NoMemory};
use std::alloc::Global;
use std::sync::Wait;
use usp_edge::{MAX_HEADS, Note, Seated};
use usp_ext::Kit;
use usp_script::{LabAsk, Script};
use usp_shared::{Seat, SharedNonces};

/// What a worker of a round serves by: the asks of the round, and the one table of each edge.
#[derive(Drop)]
pub(super) struct RoundDuty<'a, R: Wait> {
    pub rt: &'a R,
    pub alloc: Global,
    pub kit: &'a Kit,
    pub script: &'a Script,
    pub asks: &'a [LabAsk],
    pub tables: &'a [&'a SharedNonces],
    ghost edges: { length tables.now ≡ length script.now.edges },
}

impl<'a, R: Wait> RoundDuty<'a, R> {
    // Serves an ask with a part of a seat at its edge, and takes the part back.
    fn serve_over<L: Calm + Drop>(
        &self,
        ask: &LabAsk,
        line: &mut L,
        seat: &mut Seat,
    ) -> Result<Note, NoMemory>
        requires ask { IsAsk self.now.script.now.edges ask.now }
        requires head { (token : Option (List ℕ))
            × HoldsHead self.now.script.now.edges ask.now token (L.left line.old) (L.told line.old) }
        requires table { (d : _) → seat.old.table
            ≡ (slice_index_or self.now.tables.now ask.now.edge d).now.table }
        requires left { MAX_HEADS ≤ seat.old.left }
        ensures table { seat.new.table ≡ seat.old.table }
        ensures left { seat.old.left ≤ seat.new.left + MAX_HEADS }
        ensures served { IfOk result (λ note. (issued : List (Option (List ℕ))) (known : ℕ)
            → HoldsHead self.now.script.now.edges ask.now
            (carried_token self.now.script.now issued ask.now.carried) (L.left line.old) (L.told line.old)
            → HasServed SeatGains seat.old seat.new self.now.script.now issued known ask.now note
            (L.left line.new) (L.told line.new)) }
    {
        let nonces = self.tables[ask.edge as usize];
        let Ok(part) = nonces.split(seat, MAX_HEADS) else {
            unreachable!()
        };
        let asking = Asking {
            alloc: self.alloc,
            kit: self.kit,
            edges: self.script.edges(),
            objects: self.script.objects(),
        };
        let mut over = Seated::new(nonces, part, self.rt);
        let result = serve_ask(&asking, ask, line, &mut over);
        nonces.join(seat, over.into_seat());
        result
    }

    // Serves one ask of the round, with the seat at its edge.
    fn serve_job<L: Calm + Drop>(
        &self,
        job: Job<L>,
        seats: &mut [Seat],
    ) -> Result<Done<L>, NoMemory>
        requires ready { IsReady self.now.script.now self.now.asks.now (task_by L.left L.told job) }
        requires tables { map table_of seats.old ≡ map (λ nonces. nonces.now.table) self.now.tables.now }
        requires enough { All (λ seat. MAX_HEADS ≤ seat.left) seats.old }
        ensures tables { map table_of seats.new ≡ map table_of seats.old }
        ensures left { LessBy MAX_HEADS seats.old seats.new }
        ensures done { IfOk result (λ done. (issued : List (Option (List ℕ))) (known : ℕ)
            → IsOwn self.now.script.now issued self.now.asks.now (task_by L.left L.told job)
            → (served : Served) × IsDone self.now.script.now issued known self.now.asks.now
            (task_by L.left L.told job) (deed_by L.left L.told done) served
            × AllGain seats.old seats.new (served ∷ [])) }
    {
        let Job { place, mut line } = job;
        let ask = &self.asks[place];
        let note = self.serve_over(ask, &mut line, &mut seats[ask.edge as usize])?;
        Ok(Done { line, note })
    }

    // Serves the asks of a share in order, as long as there is memory.
    fn serve_jobs<L: Calm + Drop>(&self, share: &mut Share<L>) -> Result<(), NoMemory>
        requires { IsReadyPart self.now.script.now self.now.asks.now
            (map (λ nonces. nonces.now.table) self.now.tables.now)
            (part_by L.left L.told share.old) }
        ensures tables { map table_of share.new.seats.items ≡ map table_of share.old.seats.items }
        ensures done { OnOk result (HasWhole self.now.script.now self.now.asks.now
            (part_by L.left L.told share.old) (part_by L.left L.told share.new)) }
    {
        while let Some(job) = share.jobs.pop_front() {
            let done = self.serve_job(job, &mut share.seats)?;
            share.done.push_back(done)?;
        }
        Ok(())
    }

    /// Serves the asks of a share in order, each over its line and with the seat at its edge.
    pub(super) fn serve<L: Calm + Drop>(&self, share: &mut Share<L>)
        requires { IsReadyPart self.now.script.now self.now.asks.now
            (map (λ nonces. nonces.now.table) self.now.tables.now) (part_by L.left L.told share.old) }
        ensures { HasWorked self.now.script.now self.now.asks.now
            (part_by L.left L.told share.old) (part_by L.left L.told share.new) }
    {
        share.whole = self.serve_jobs(share).is_ok();
    }
}
