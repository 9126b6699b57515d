ghost use Rattle.std.specs.Prelude.{◌≡◌, ◌≤◌};
ghost use Rattle.cb_crew.specs.Crew.{IsHandlerOf};

use crate::signals::{Bed, Signals};
use cb_crew::{Crew, Handler, TurnOutcome, Work};
use std::sync::Wait;

/// What a handler's thread does after each of its turns. The desk was given back by then. A tick
/// can close a work, so something may have happened in a turn that took nothing, too. The reader of
/// a peer from whose inbox marks were taken is woken after this call.
pub trait AfterTurn {
    /// Does what is to be done after this turn.
    fn after_turn<R: Wait>(&self, rt: &R, turn: TurnOutcome);
}

/// Nothing is done after a turn.
#[derive(Clone, Copy)]
pub struct Nothing;

impl AfterTurn for Nothing {
    fn after_turn<R: Wait>(&self, _rt: &R, _turn: TurnOutcome) {}
}

/// What a handler's thread is set up with.
#[derive(Clone, Copy, Drop)]
pub struct HandlerSetup<H> {
    /// How many marks a handler takes in a turn at most, 1 to 64.
    pub budget: u32,
    /// What is done after each turn.
    pub hook: H,
}

/// How long a handler has found nothing to do.
#[derive(Drop)]
struct Vigil {
    /// How many turns in a row served nothing, since the last turn that served something or the
    /// last round in vain.
    fruitless: u16,
    /// Whether the handler lies in its bed.
    lies: bool,
    bed: Bed,
}

impl Vigil {
    fn new(bed: Bed) -> Vigil {
        Vigil {
            fruitless: 0,
            lies: false,
            bed,
        }
    }

    /// The handler gets up if it lay down.
    fn stand_up(&mut self, signals: &Signals) {
        if self.lies {
            self.lies = false;
            signals.get_up(self.bed);
        }
    }

    /// A turn served something: counts from the beginning again.
    fn served(&mut self, signals: &Signals) {
        self.fruitless = 0;
        self.stand_up(signals);
    }

    /// A turn served nothing. Returns whether that completes a round in vain: as many such turns in
    /// a row as there are peers.
    fn is_in_vain(&mut self, peers: u16) -> bool {
        self.fruitless = self.fruitless.saturating_add(1);
        if self.fruitless < peers {
            return false;
        }
        self.fruitless = 0;
        true
    }

    /// What a handler does after a round in vain. First it lies down. After another round in vain
    /// it sleeps. It gets up once a turn served something.
    fn rest<R: Wait>(&mut self, rt: &R, signals: &Signals) {
        if self.lies {
            signals.sleep(rt, self.bed);
        } else {
            self.lies = true;
            signals.lie_down(self.bed);
        }
    }
}

/// What a handler's thread does. It makes turns until it is told to stop and a round is in vain, or
/// it has made all its turns. It then returns its handler, after getting up, so that nobody wakes
/// it any more. After each turn it calls the hook.
///
/// So what is still queued when the last reader returns is shared by all handlers. It isn't left to
/// the one thread that finishes the crew.
pub(crate) fn handle<W: Work, H: AfterTurn, R: Wait>(
    rt: &R,
    crew: &Crew<W>,
    mut handler: Handler<W>,
    signals: &Signals,
    setup: &HandlerSetup<H>,
    bed: Bed,
) -> Handler<W>
    requires crew { IsHandlerOf crew.now handler }
    requires budget { (1 ≤ setup.now.budget) × (setup.now.budget ≤ 64) }
    ensures crew { IsHandlerOf crew.now result }
    ensures room { result.room ≡ handler.room }
{
    let budget = setup.budget;
    let mut vigil = Vigil::new(bed);
    for _ in rt.forever() {
        let stopped = signals.is_stopped();
        let turn = handler.turn(rt, crew, budget);
        setup.hook.after_turn(rt, turn);
        match turn {
            TurnOutcome::Served(peer, _, _) => {
                signals.make_room(peer);
                vigil.served(signals);
            }
            TurnOutcome::Idle(_) | TurnOutcome::Shut(_) | TurnOutcome::NoDesk => {
                if vigil.is_in_vain(crew.peers()) {
                    if stopped {
                        vigil.stand_up(signals);
                        return handler;
                    }
                    vigil.rest(rt, signals);
                }
            }
            TurnOutcome::Spent => {
                vigil.stand_up(signals);
                return handler;
            }
        }
    }
    unreachable!()
}
