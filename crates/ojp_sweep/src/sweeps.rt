//! The sweep: each connection of the days is looked at once, in the order of departures.

ghost use Rattle.std.specs.Prelude.{◌≡◌, ℕ, ◌+◌, ◌-◌, ◌^◌, ◌<◌, length, slice_index, slice_set};
ghost use Rattle.ojp_sweep.specs.Rides.{IsSearch};
ghost use Rattle.ojp_sweep.specs.Labels.{AreLabels, IsClosed, BoardsLate, KeepsReady};
ghost use Rattle.ojp_sweep.specs.Sweeps.{IsOnRun, FallsAt, IsLowAt, IsCountOfRuns, HasBoarded, IsSwept, IsNext, IsMoment, IsFirst, IsLimit, GoesFurther, IsCountBefore, HasRoom};

use crate::connections::{Asked, Connections, Days};
use crate::labels::{DAY_LONG, Hop, Labels};
use crate::progress::{Next, Progress};
use std::cmp::min;

/// A moment that is past all others, but one.
const LAST: u64 = u64::MAX - 1;

/// What a sweep goes over: the days of a network, from the origin at the start.
#[derive(Drop)]
pub struct Search<'a> {
    pub net: &'a Connections,
    pub days: &'a Days,
    pub asked: Asked,
}

impl Search<'_> {
    /// Alights from the run at the end of the connection, and lowers the label there if it is above the arrival.
    fn alight(&self, labels: &mut Labels, day: usize, board: usize, index: usize)
        requires search { IsSearch self.now.net.now self.now.days.now self.now.asked }
        requires labels { AreLabels labels.old self.now.net.now self.now.days.now self.now.asked }
        requires on_run { IsOnRun labels.old.ready.items self.now.net.now self.now.days.now day board index }
        ensures labels { AreLabels labels.new self.now.net.now self.now.days.now self.now.asked }
        ensures falls { FallsAt labels.old labels.new self.now.net.now self.now.days.now day index }
        ensures kept { KeepsReady self.now.asked labels.old labels.new }
        ensures low { IsLowAt labels.new.arrives.items self.now.net.now self.now.days.now day index }
    {
        let last = self.net.sorted[index];
        let place = last.to as usize;
        let arrives = self.days.bases[day] + u64::from(last.arrives);
        labels.lower(
            self.net,
            self.asked.in_round,
            place,
            arrives,
            Hop {
                day: day as u32,
                board: board as u32,
                alight: index as u32,
            },
        );
    }

    /// Boards the run at the connection if it runs, was not boarded and one is ready there in time. One more than
    /// the number of the connection at which it was boarded, or 0.
    fn board(&self, labels: &Labels, boarded: &mut Vec<u32>, day: usize, index: usize) -> u32
        requires search { IsSearch self.now.net.now self.now.days.now self.now.asked }
        requires labels { AreLabels labels.now self.now.net.now self.now.days.now self.now.asked }
        requires runs { IsCountOfRuns boarded.old.items self.now.net.now }
        requires day { day < 4 }
        requires index { index < length self.now.net.now.sorted.items }
        ensures { HasBoarded boarded.old.items boarded.new.items labels.now.ready.items self.now.net.now self.now.days.now day index result }
    {
        let connection = self.net.sorted[index];
        let journey = connection.journey as usize;
        let run = 4 * journey + day;
        if boarded[run] == 0 {
            let departs = self.days.bases[day] + u64::from(connection.departs);
            let service = self.net.services[journey] as usize;
            if labels.ready[connection.from as usize] <= departs
                && self.days.running[4 * service + day]
            {
                boarded[run] = index as u32 + 1;
            }
        }
        boarded[run]
    }

    /// Looks at the day's next connection, and goes past it.
    fn look(&self, progress: &mut Progress, day: usize)
        requires search { IsSearch self.now.net.now self.now.days.now self.now.asked }
        requires swept { IsSwept progress.old self.now.net.now self.now.days.now self.now.asked }
        requires day { day < 4 }
        requires next { IsNext progress.old self.now.net.now self.now.days.now day }
        ensures swept { IsSwept progress.new self.now.net.now self.now.days.now self.now.asked }
        ensures cursors { progress.new.cursors.items ≡ slice_set progress.old.cursors.items day (slice_index progress.old.cursors.items day + 1) }
        ensures ends { progress.new.ends.items ≡ progress.old.ends.items }
        ensures kept { KeepsReady self.now.asked progress.old.labels progress.new.labels }
    {
        let index = progress.cursors[day];
        let board = self.board(&progress.labels, &mut progress.boarded, day, index);
        if board > 0 {
            self.alight(&mut progress.labels, day, board as usize - 1, index);
        }
        progress.cursors[day] = index + 1;
    }

    /// The moment at which the day's next connection leaves, and one past all moments where there is none.
    fn moment(&self, progress: &Progress, day: usize) -> u64
        requires search { IsSearch self.now.net.now self.now.days.now self.now.asked }
        requires swept { IsSwept progress.now self.now.net.now self.now.days.now self.now.asked }
        requires day { day < 4 }
        ensures { IsMoment progress.now self.now.net.now self.now.days.now day result }
    {
        let index = progress.cursors[day];
        if index >= progress.ends[day] {
            return u64::MAX;
        }
        self.days.bases[day] + u64::from(self.net.sorted[index].departs)
    }

    /// The day whose next connection leaves first.
    fn next(&self, progress: &Progress) -> Next
        requires search { IsSearch self.now.net.now self.now.days.now self.now.asked }
        requires swept { IsSwept progress.now self.now.net.now self.now.days.now self.now.asked }
        ensures { IsFirst progress.now self.now.net.now self.now.days.now 4 result }
    {
        let mut next = Next {
            day: 0,
            at: self.moment(progress, 0),
            limit: LAST,
        };
        'days: for day in 1..4 {
            let at = self.moment(progress, day);
            if at < next.at {
                let limit = min(next.at, LAST);
                next = Next { day, at, limit };
            } else {
                next.limit = min(next.limit, at);
            }
        }
        next
    }

    /// Looks at the day's next connections, as long as they leave no later than the limit.
    fn run(&self, progress: &mut Progress, day: usize, limit: u64)
        requires search { IsSearch self.now.net.now self.now.days.now self.now.asked }
        requires swept { IsSwept progress.old self.now.net.now self.now.days.now self.now.asked }
        requires day { day < 4 }
        requires next { IsNext progress.old self.now.net.now self.now.days.now day }
        requires bound { limit < 2 ^ 64 - 1 }
        requires limit { IsLimit progress.old self.now.net.now self.now.days.now day limit }
        ensures swept { IsSwept progress.new self.now.net.now self.now.days.now self.now.asked }
        ensures further { GoesFurther progress.old progress.new day }
        ensures kept { KeepsReady self.now.asked progress.old.labels progress.new.labels }
    {
        'looks: loop {
            self.look(progress, day);
            if self.moment(progress, day) > limit {
                return;
            }
        }
    }

    /// Looks at the connections of all days, in the order in which they leave.
    fn sweep(&self, progress: &mut Progress)
        requires search { IsSearch self.now.net.now self.now.days.now self.now.asked }
        requires swept { IsSwept progress.old self.now.net.now self.now.days.now self.now.asked }
        ensures swept { IsSwept progress.new self.now.net.now self.now.days.now self.now.asked }
        ensures closed { IsClosed progress.new.labels.arrives.items progress.new.labels.ready.items self.now.net.now self.now.days.now }
        ensures kept { KeepsReady self.now.asked progress.old.labels progress.new.labels }
    {
        'runs: loop {
            let next = self.next(progress);
            if next.at > LAST {
                return;
            }
            self.run(progress, next.day, next.limit);
        }
    }

    /// How many connections leave before the moment on the day: they are the first of all.
    fn before(&self, day: usize, moment: u64) -> usize
        requires search { IsSearch self.now.net.now self.now.days.now self.now.asked }
        requires day { day < 4 }
        ensures { IsCountBefore self.now.net.now self.now.days.now day moment result }
    {
        let offset = moment.saturating_sub(self.days.bases[day]);
        let all = self.net.sorted.as_slice();
        all.partition_point(|connection| u64::from(connection.departs) < offset)
    }

    /// Begins before the connections that leave at the start, and ends before those that leave after the day.
    fn begin(&self, progress: &mut Progress)
        requires search { IsSearch self.now.net.now self.now.days.now self.now.asked }
        requires room { HasRoom progress.old self.now.net.now }
        requires round { BoardsLate progress.old.labels self.now.asked }
        ensures swept { IsSwept progress.new self.now.net.now self.now.days.now self.now.asked }
        ensures kept { KeepsReady self.now.asked progress.old.labels progress.new.labels }
    {
        progress.labels.clear(self.asked);
        leave(&mut progress.boarded);
        'days: for day in 0..4 {
            progress.cursors[day] = self.before(day, self.asked.start);
            progress.ends[day] = self.before(day, self.asked.start + DAY_LONG + 1);
        }
    }

    /// Finds the earliest arrivals at all places.
    pub fn settle(&self, progress: &mut Progress)
        requires search { IsSearch self.now.net.now self.now.days.now self.now.asked }
        requires room { HasRoom progress.old self.now.net.now }
        requires round { BoardsLate progress.old.labels self.now.asked }
        ensures room { HasRoom progress.new self.now.net.now }
        ensures kept { KeepsReady self.now.asked progress.old.labels progress.new.labels }
        ensures labels { AreLabels progress.new.labels self.now.net.now self.now.days.now self.now.asked }
        ensures closed { IsClosed progress.new.labels.arrives.items progress.new.labels.ready.items self.now.net.now self.now.days.now }
    {
        self.begin(progress);
        self.sweep(progress);
    }
}

/// No run is boarded.
fn leave(boarded: &mut Vec<u32>)
    ensures count { length boarded.new.items ≡ length boarded.old.items }
    ensures none { (run : ℕ) → run < length boarded.old.items → slice_index boarded.new.items run ≡ 0 }
{
    boarded.as_mut_slice().fill(0);
}
