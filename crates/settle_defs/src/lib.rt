//! Settling as a function, and what is known of a session's variables once they are settled. The
//! definitions stand in specs/; here are their laws.
#![tactic(auto)]

ghost use Rattle.settle_defs.specs.Laws.{AsksByName, AsksWhereItWaits, HasChain, HasOutcome, IsAlwaysNamed, IsIdleAfter, BeginsSo, IsSettled, KeepsItsPeer, LeavesTheServer, SendsFew, StaysAtRest, StaysLive, StaysNamed};

/// Settling as a function is what a chain of rows gives, it leaves values of sessions, and nothing is
/// left to be done. An event leads to its outcome. Fewer than 48 packets are sent, each of which fits
/// into a frame.
pub fn settling_is_a_function()
    ensures same { IsSettled }
    ensures chain { HasChain }
    ensures outcome { HasOutcome }
    ensures opening { BeginsSo }
    ensures rest { StaysAtRest }
    ensures live { StaysLive }
    ensures idle { IsIdleAfter }
    ensures peer { KeepsItsPeer }
    ensures sends { SendsFew }
{}

/// The server is asked only in the state that waits for it, by a host that gave a name; and where that
/// state is left without an answer, what was asked is no longer wanted.
pub fn the_server_is_asked_once()
    ensures asks { AsksWhereItWaits }
    ensures by_name { AsksByName }
    ensures leaves { LeavesTheServer }
    ensures named { IsAlwaysNamed }
    ensures stays_named { StaysNamed }
{}
