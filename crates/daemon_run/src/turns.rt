//! The turns of a daemon.
ghost use Rattle.std.specs.Prelude.{◌≡◌, ◌≢◌, ◌≤◌, ◌<◌, OnOk, OnErr, IfErr, Err, length};
ghost use Rattle.hags_io.specs.Fronts.{EndsByWrite, EndsByReceive};
ghost use Rattle.link_use.specs.Stops.{StopsBy, StopsDaemon};
ghost use Rattle.daemon_run.specs.Audience.{Attend};
ghost use Rattle.daemon_run.specs.Doing.{IsSame, TicksAs, TickBreaks, TickFails, HearsAs, HearBreaks, HearFails};
ghost use Rattle.daemon_run.specs.Turning.{StopsTurn, TurnsAs, TurnBreaks, TurnFails, TurnPauses};
ghost use Rattle.daemon_run.specs.Serving.{TurnsServed, TurnsEnded, TurnsPause, TurnsFront, TurnsFail};
ghost use Rattle.daemon_model.specs.Options.{first_pace};

use crate::calls::Hosts;
use crate::keeping::is_pause;
use crate::running::Running;
use client_callbacks::Callbacks;
use daemon_model::{Options, Pace};
use hags_io::Outside;
use link_use::{MOST_FAILED, Stop, buffer};
use node_core::NodeEvent;
use std::alloc::Global;

/// A tick comes where so many milliseconds have passed since the last one.
const TICK: u64 = 100;

impl<C: Callbacks> Running<C> {
    /// A tick, where it is due.
    #[tactic(auto, using(crate::proofs::TurnLaws::tick_done, crate::proofs::TurnLaws::tick_not, crate::proofs::TurnLaws::tick_broke, crate::proofs::TurnLaws::tick_fails))]
    fn tick_if_due<O: Outside>(
        &mut self,
        alloc: Global,
        moment: u64,
        outside: &mut O,
    ) -> Result<(), Stop>
        requires { self.old.outbox.me ≤ 32 }
        ensures done { OnOk result (TicksAs (Attend C.stands_for C.script) self.old self.new
            (O.told outside.old) (O.told outside.new) moment) }
        ensures broke { OnErr result (TickBreaks self.old (O.told outside.old)
            (O.told outside.new) moment) }
        ensures unwritten { IfErr result (λ stop. stop ≡ Stop.WriteFault → TickFails
            (Attend C.stands_for C.script) self.old self.new (O.told outside.old)
            (O.told outside.new) moment) }
        ensures same { IsSame self.old self.new }
        ensures fault { IfErr result (StopsBy (O.told outside.new)) }
    {
        if moment.saturating_sub(self.last) >= TICK {
            self.last = moment;
            self.step(alloc, NodeEvent::Tick, outside)?;
            self.count();
        }
        Ok(())
    }

    /// A receive, with what comes of it.
    #[tactic(auto, using(crate::proofs::TurnLaws::hear_nothing, crate::proofs::TurnLaws::hear_none))]
    fn hear<H: Hosts<C>, O: Outside>(
        &mut self,
        alloc: Global,
        buf: &mut [u8],
        hosts: &mut H,
        outside: &mut O,
    ) -> Result<(), Stop>
        requires within { self.old.outbox.me ≤ 32 }
        requires room { 65536 ≤ length buf.old }
        ensures done { OnOk result (HearsAs (Attend C.stands_for C.script) self.old self.new
            (O.told outside.old) (O.told outside.new)) }
        ensures broke { OnErr result (HearBreaks self.old (O.told outside.old)
            (O.told outside.new)) }
        ensures unwritten { IfErr result (λ stop. stop ≡ Stop.WriteFault → HearFails
            (Attend C.stands_for C.script) self.old self.new (O.told outside.old)
            (O.told outside.new)) }
        ensures same { self.new.outbox.me ≡ self.old.outbox.me }
        ensures failed { OnOk result (0 < self.new.receiving.failed
            → EndsByReceive (O.told outside.new)) }
        ensures len { length buf.new ≡ length buf.old }
        ensures fault { IfErr result (StopsBy (O.told outside.new)) }
    {
        match self.receiving.receive(alloc, buf, outside)? {
            None => Ok(()),
            Some(whole) => {
                self.give(
                    alloc,
                    whole.message.as_slice(),
                    whole.network,
                    hosts,
                    outside,
                )
            }
        }
    }

    /// A turn: the clock is read, and the pause looked for; the node ticks where it is due, and behind its tick comes what the
    /// options ask; and one receive.
    #[tactic(auto, using(crate::proofs::TurnLaws::turn_plain, crate::proofs::TurnLaws::turn_kept, crate::proofs::TurnLaws::turn_ends, crate::proofs::TurnLaws::turn_ends_own, crate::proofs::TurnLaws::turn_broke_plain, crate::proofs::TurnLaws::turn_broke_kept, crate::proofs::TurnLaws::turn_fails_at_tick, crate::proofs::TurnLaws::turn_fails_own, crate::proofs::TurnLaws::turn_fails_plain, crate::proofs::TurnLaws::turn_fails_kept, crate::proofs::TurnLaws::turn_pauses, crate::proofs::FailLaws::stops_turn))]
    fn turn<H: Hosts<C>, O: Outside>(
        &mut self,
        alloc: Global,
        options: Options,
        pace: &mut Pace,
        buf: &mut [u8],
        hosts: &mut H,
        outside: &mut O,
    ) -> Result<(), Stop>
        requires within { self.old.outbox.me ≤ 32 }
        requires room { 65536 ≤ length buf.old }
        ensures done { OnOk result (TurnsAs (Attend C.stands_for C.script) options pace.old
            pace.new self.old self.new (O.told outside.old) (O.told outside.new)) }
        ensures broke { IfErr result (λ stop. stop ≢ Stop.Paused → TurnBreaks options pace.old
            self.old (O.told outside.old) (O.told outside.new)) }
        ensures unwritten { IfErr result (λ stop. stop ≡ Stop.WriteFault → TurnFails
            (Attend C.stands_for C.script) options pace.old self.old self.new
            (O.told outside.old) (O.told outside.new)) }
        ensures paused { IfErr result (λ stop. stop ≡ Stop.Paused → (self.new ≡ self.old)
            × TurnPauses options pace.old (O.told outside.old) (O.told outside.new)) }
        ensures same { self.new.outbox.me ≡ self.old.outbox.me }
        ensures failed { OnOk result (0 < self.new.receiving.failed
            → EndsByReceive (O.told outside.new)) }
        ensures len { length buf.new ≡ length buf.old }
        ensures fault { IfErr result (StopsTurn (O.told outside.new)) }
    {
        let moment = outside.now();
        if is_pause(options.gap, pace.before, moment) {
            return Err(Stop::Paused);
        }
        pace.before = moment;
        let due = moment.saturating_sub(self.last) >= TICK;
        self.tick_if_due(alloc, moment, outside)?;
        if !due {
            return self.hear(alloc, buf, hosts, outside);
        }
        pace.apart = self.keep(alloc, options, pace.apart, hosts, outside)?;
        self.hear(alloc, buf, hosts, outside)
    }

    /// So many turns, from this moment on; fewer where 16 receives fail in a row, and where a moment is a pause.
    #[tactic(auto, using(crate::proofs::ServeLaws::turns_none, crate::proofs::ServeLaws::turns_unbegun, crate::proofs::ServeLaws::turns_next, crate::proofs::ServeLaws::turns_all, crate::proofs::ServeLaws::turns_fail, crate::proofs::ServeLaws::turns_paused, link_use::proofs::StopLaws::stops_daemon, crate::proofs::FailLaws::turn_stops_daemon))]
    pub fn serve_turns<H: Hosts<C>, O: Outside>(
        &mut self,
        alloc: Global,
        options: Options,
        start: u64,
        turns: u64,
        hosts: &mut H,
        outside: &mut O,
    ) -> Result<(), Stop>
        requires { self.old.outbox.me ≤ 32 }
        ensures done { OnOk result (TurnsServed (Attend C.stands_for C.script) options start
            self.old self.new turns (O.told outside.old) (O.told outside.new)) }
        ensures ended { result ≡ Err Stop.LinkFault → TurnsEnded (Attend C.stands_for C.script)
            options (first_pace start) self.old self.new turns (O.told outside.old)
            (O.told outside.new) }
        ensures paused { result ≡ Err Stop.Paused → TurnsPause (Attend C.stands_for C.script)
            options (first_pace start) self.old self.new turns (O.told outside.old)
            (O.told outside.new) }
        ensures unwritten { IfErr result (λ stop. stop ≡ Stop.WriteFault → TurnsFail
            (Attend C.stands_for C.script) options (first_pace start) self.old self.new turns
            (O.told outside.old) (O.told outside.new)) }
        ensures ever { result ≢ Err Stop.Paused → TurnsFront options (first_pace start)
            self.old turns (O.told outside.old) (O.told outside.new) }
        ensures written { result ≡ Err Stop.WriteFault → EndsByWrite (O.told outside.new) }
        ensures failed { result ≡ Err Stop.LinkFault → EndsByReceive (O.told outside.new) }
        ensures stops { IfErr result StopsDaemon }
    {
        let mut room = buffer(alloc)?;
        let buf = room.as_mut_slice();
        let mut pace = Pace {
            before: start,
            apart: 0,
        };
        for _ in 0..turns {
            self.turn(alloc, options, &mut pace, buf, hosts, outside)?;
            if self.receiving.failed >= MOST_FAILED {
                return Err(Stop::LinkFault);
            }
        }
        Ok(())
    }
}
