//! Laws that hold for every list of acts. Each law is the contract of a function with an empty
//! body.
ghost use Rattle.std.specs.Prelude.{◌≡◌, ℕ, ◌+◌, ◌<◌, ◌≤◌, false, List, ◌++◌, length};
ghost use Rattle.std.specs.List.{sum_by, range_with_len};
ghost use Rattle.cb_crew.specs.declared.act.Act.{Act};
ghost use Rattle.cb_crew.specs.declared.act.Mark.{Mark};
ghost use Rattle.cb_crew.specs.Line.{Line, LineReached, connections};
ghost use Rattle.cb_crew.specs.Parts.{parts, part};
ghost use Rattle.cb_crew.specs.Desks.{Desks, DesksReached, held_by};
ghost use Rattle.cb_crew.specs.CrewModel.{Crew, IsEnabled, Step, Run, HoldsDesk, line_of, desk_of, is_end, is_open};
ghost use Rattle.cb_crew.specs.Laws.{Reaches, IsBeginning, OpensFollowEnds, ends_last, EachDeskOnce, CanGoOn, TakesAll, LineRuns, DesksRun};

/// An act that is possible in a state leads to exactly one state. An act that isn't possible leads
/// to none.
pub fn one_step_for_each_act()
    ensures leads { (capacity : ℕ) (s : Crew) (a : Act) → IsEnabled capacity s a →
        (t : Crew) × Step capacity s a t }
    ensures only_then { (capacity : ℕ) (s t : Crew) (a : Act) → Step capacity s a t →
        IsEnabled capacity s a }
    ensures one { (capacity : ℕ) (s t u : Crew) (a : Act) → Step capacity s a t →
        Step capacity s a u → t ≡ u }
{}

/// For each peer, the queued marks are the taken marks followed by the marks in the inbox. So no
/// mark is lost, doubled, invented or out of order.
pub fn queued_is_taken_then_inbox()
    ensures { (peers handlers capacity : ℕ) (acts : List Act) (s : Crew) →
        Reaches peers handlers capacity acts s → (p : ℕ) →
        (line_of s p).queued ≡ (line_of s p).taken ++ (line_of s p).inbox }
{}

/// Each open mark follows an end mark. Each end mark is last or is followed by an open mark. A peer
/// has ended exactly if its last mark is an end mark. A peer has at most 256 connections.
pub fn opens_follow_ends()
    ensures follow { (peers handlers capacity : ℕ) (acts : List Act) (s : Crew) →
        Reaches peers handlers capacity acts s → (p : ℕ) →
        OpensFollowEnds is_end is_open false (line_of s p).queued }
    ensures flag { (peers handlers capacity : ℕ) (acts : List Act) (s : Crew) →
        Reaches peers handlers capacity acts s → (p : ℕ) →
        (line_of s p).ended ≡ ends_last is_end false (line_of s p).queued }
    ensures few { (peers handlers capacity : ℕ) (acts : List Act) (s : Crew) →
        Reaches peers handlers capacity acts s → (p : ℕ) →
        connections is_open (line_of s p).queued ≤ 256 }
{}

/// In each connection of a peer, the taken marks are a prefix of the queued ones. They are all of
/// them once the open mark of the next connection was taken. There are as many parts as
/// connections.
pub fn connections_in_order()
    ensures begins { (peers handlers capacity : ℕ) (acts : List Act) (s : Crew) →
        Reaches peers handlers capacity acts s → (p k : ℕ) →
        IsBeginning (part is_open (line_of s p).taken k) (part is_open (line_of s p).queued k) }
    ensures whole { (peers handlers capacity : ℕ) (acts : List Act) (s : Crew) →
        Reaches peers handlers capacity acts s → (p k : ℕ) →
        k + 1 < connections is_open (line_of s p).taken →
        part is_open (line_of s p).taken k ≡ part is_open (line_of s p).queued k }
    ensures count { (marks : List Mark) → length (parts is_open marks) ≡ connections is_open marks }
{}

/// No inbox holds more marks than its capacity.
pub fn inboxes_within_capacity()
    ensures { (peers handlers capacity : ℕ) (acts : List Act) (s : Crew) →
        Reaches peers handlers capacity acts s → (p : ℕ) → length (line_of s p).inbox ≤ capacity }
{}

/// Each peer's desk is in exactly one place, in the ring or with one handler. There is no other
/// desk, and no handler holds two.
pub fn each_desk_once()
    ensures once { (peers handlers capacity : ℕ) (acts : List Act) (s : Crew) →
        Reaches peers handlers capacity acts s → EachDeskOnce peers s.desks }
    ensures one_each { (peers handlers capacity : ℕ) (acts : List Act) (s : Crew) →
        Reaches peers handlers capacity acts s → (k : ℕ) → length (held_by s.desks k) ≤ 1 }

    // Give each desk any weight. The desks in the ring and with handlers weigh together as much as
    // the desks of all peers.
    ensures weights { (weight : ℕ → ℕ) (peers handlers capacity : ℕ) (acts : List Act) (s : Crew) →
        Reaches peers handlers capacity acts s →
        sum_by weight s.desks.ring + sum_by (sum_by weight) s.desks.held
        ≡ sum_by weight (range_with_len 0 peers) }
{}

/// Further acts only add to what was queued and to what was taken, at the end.
pub fn taken_only_grows()
    ensures queued { (capacity : ℕ) (acts : List Act) (s t : Crew) → Run capacity s acts t →
        (p : ℕ) → IsBeginning (line_of s p).queued (line_of t p).queued }
    ensures taken { (capacity : ℕ) (acts : List Act) (s t : Crew) → Run capacity s acts t →
        (p : ℕ) → IsBeginning (line_of s p).taken (line_of t p).taken }
{}

/// The acts of any number of peers and handlers may come in any order. The items taken for a peer
/// are always a prefix of those that its reader queued, each once and in order. Further acts only
/// make that prefix longer.
pub fn items_in_order()
    ensures now { (peers handlers capacity : ℕ) (acts : List Act) (s : Crew) →
        Reaches peers handlers capacity acts s → (p : ℕ) →
        IsBeginning (line_of s p).taken (line_of s p).queued }
    ensures later { (peers handlers capacity : ℕ) (acts more : List Act) (s t : Crew) →
        Reaches peers handlers capacity acts s → Run capacity s more t → (p : ℕ) →
        IsBeginning (line_of s p).taken (line_of t p).taken
        × IsBeginning (line_of t p).taken (line_of t p).queued }
{}

/// In each state some handler has a possible act. A handler that holds a desk can take from its
/// inbox until that is empty. This says only that acts are possible, not that they happen: it
/// promises neither progress nor fairness.
pub fn never_stuck()
    ensures some { (peers handlers capacity : ℕ) (acts : List Act) (s : Crew) → 0 < peers →
        0 < handlers → Reaches peers handlers capacity acts s → (k : ℕ) × CanGoOn capacity s k }
    ensures takes { (peers handlers capacity : ℕ) (acts : List Act) (s : Crew) →
        Reaches peers handlers capacity acts s → (k : ℕ) → HoldsDesk s k → TakesAll capacity s k }
{}

/// States reached by lists of acts agree with the rules for one line alone (`LineReached`) and for
/// the desks alone (`DesksReached`).
pub fn reached_as_data()
    ensures lines { (peers handlers capacity : ℕ) (acts : List Act) (s : Crew) →
        Reaches peers handlers capacity acts s → (p : ℕ) →
        LineReached is_end is_open (line_of s p) }
    ensures desks { (peers handlers capacity : ℕ) (acts : List Act) (s : Crew) →
        Reaches peers handlers capacity acts s → DesksReached peers handlers s.desks }
    ensures line_runs { (capacity : ℕ) (l : Line Mark) → LineReached is_end is_open l →
        length l.queued ≤ capacity → LineRuns capacity l }
    ensures desks_run { (peers handlers capacity : ℕ) (d : Desks) → DesksReached peers handlers d →
        DesksRun peers handlers capacity d }
{}
