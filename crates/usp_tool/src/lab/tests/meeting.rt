//! Two workers of one round side by side.
use super::{TWICE, TWICE_SHOWN, lab_over, some_files};
use std::alloc::Global;
use std::sync::atomic::{AtomicU64, Ordering};
use std::test::Fail;
use usp_base::{Failed, Sink, Source, SteadyWire, Wire};
use usp_lab::{Bench, Calm, NoMemory, PlainBench};

// How often a line looks for the other's flag.
const LOOKS: u64 = 200_000_000;

// A line that raises its own flag where it is read, and waits for that of the other.
#[derive(Drop)]
struct MeetingLine<'a> {
    wire: SteadyWire,
    own: &'a AtomicU64,
    other: &'a AtomicU64,
    // How many reads waited in vain.
    missed: &'a AtomicU64,
}

impl<'a> MeetingLine<'a> {
    fn meet(&self) {
        self.own.store(1, Ordering::SeqCst);
        for _ in 0..LOOKS {
            if self.other.load(Ordering::SeqCst) == 1 {
                return;
            }
        }
        self.missed.fetch_add(1, Ordering::SeqCst);
    }
}

impl<'a> Source for MeetingLine<'a> {
    ghost use Rattle.std.specs.Prelude.{◌≡◌, Some};
    ghost use Rattle.usp_base.specs.Memory.{steady_ended, steady_left};

    ghost left = { λ l. Some (steady_left l.wire.source) };

    ghost ended = { λ l. steady_ended l.wire.source };

    ghost read_count = { λ l. 0 };

    ghost reads = { λ l m. m.wire.sink ≡ l.wire.sink };

    fn read(&mut self, into: &mut [u8]) -> Result<usize, Failed> {
        self.meet();
        self.wire.source.read(into)
    }

    fn read_faults(&self) -> u64 {
        0
    }
}

impl<'a> Sink for MeetingLine<'a> {
    ghost use Rattle.std.specs.Prelude.{◌≡◌, Some};
    ghost use Rattle.usp_base.specs.Memory.{steady_told};

    ghost told = { λ l. Some (steady_told l.wire.sink) };

    ghost put_count = { λ l. 0 };

    ghost puts = { λ l m. m.wire.source ≡ l.wire.source };

    fn put(&mut self, piece: &[u8]) -> Result<(), Failed> {
        self.wire.sink.put(piece)
    }

    fn put_faults(&self) -> u64 {
        0
    }
}

impl<'a> Wire for MeetingLine<'a> {
    ghost use Rattle.std.specs.Prelude.{Some};
    ghost use Rattle.std.proofs.Common.{ap, refl};
    ghost use Rattle.usp_base.specs.Memory.{steady_ended, steady_left, steady_told};

    ghost read_apart = { λ a b h. (ap (λ s. Some (steady_told s)) h, refl) };

    ghost put_apart = { λ a b h. (ap (λ s. Some (steady_left s)) h, ap steady_ended h, refl) };
}

impl<'a> Calm for MeetingLine<'a> {
    ghost use Rattle.std.proofs.Common.{refl};
    ghost use Rattle.usp_base.specs.Memory.{steady_left, steady_told};

    ghost never_fails = { λ a. (refl, refl) };

    ghost tells = { λ a. ((steady_left a.wire.source, refl), (steady_told a.wire.sink, refl)) };
}

// A bench whose lines have the two flags in turn.
#[derive(Drop)]
struct MeetingBench<'a> {
    plain: PlainBench,
    own: &'a AtomicU64,
    other: &'a AtomicU64,
    missed: &'a AtomicU64,
}

impl<'a> Bench for MeetingBench<'a> {
    ghost use Rattle.std.specs.Prelude.{None};
    ghost use Rattle.usp_lab.specs.BenchMemory.{plain_out};

    type Line = MeetingLine<'a>;

    ghost given_back = { λ _. None };

    ghost lines_out = { λ bench. plain_out bench.plain };

    fn line(&mut self, alloc: Global, head: Vec<u8>) -> Result<MeetingLine<'a>, NoMemory> {
        let wire = self.plain.line(alloc, head)?;
        let (own, other) = (self.own, self.other);
        self.own = other;
        self.other = own;
        Ok(MeetingLine {
            wire,
            own,
            other,
            missed: self.missed,
        })
    }

    fn back(&mut self, line: MeetingLine<'a>) {
        let MeetingLine { wire, .. } = line;
        self.plain.back(wire);
    }
}

#[test]
fn two_workers_of_a_round_run_side_by_side(rt: HostRuntime) -> Result<(), Fail> {
    let alloc = rt.alloc();
    let first = AtomicU64::new(0);
    let second = AtomicU64::new(0);
    let missed = AtomicU64::new(0);
    let bench = MeetingBench {
        plain: PlainBench::new(),
        own: &first,
        other: &second,
        missed: &missed,
    };
    let files = some_files(alloc)?;
    let (_, text) = lab_over(&rt, &["lab", "2"], files, TWICE.as_bytes(), bench)?;
    assert_eq!(rt; missed.load(Ordering::SeqCst), 0);
    assert!(rt; TWICE_SHOWN.contains(&text.as_slice()));
    Ok(())
}
