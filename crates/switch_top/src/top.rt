// The call that does all that the program does.
ghost use Rattle.std.specs.Prelude.{◌≡◌, ◌≢◌, ◌↔◌, ◌⊎◌, ℕ, List, Option, None, Some, true, false, map, string_bytes};
ghost use Rattle.std.specs.Io.KnownBytes.{IsAtEnd};
ghost use Rattle.wire_defs.specs.Outside.{Rose};
ghost use Rattle.switch_event.specs.Config.{empty};
ghost use Rattle.event_record.specs.declared.TheConstants.{MOST_EVENTS};
ghost use Rattle.history_defs.specs.declared.TheConstants.{MOST_OCTETS};
ghost use Rattle.history_defs.specs.Output.{IsPlain};
ghost use Rattle.history_defs.specs.Status.{status_text};
ghost use Rattle.outside_text.specs.Streams.{Says};
ghost use Rattle.race_run.specs.Ending.{OfText, StopsShort, refusal_of, status_of, ending_text};
ghost use Rattle.race_phases.specs.Raced.{begun_by, legal_by};
ghost use Rattle.switch_top.specs.declared.form.Form.TheVariants.{Check as AsksCheck, Replay as AsksReplay, Race as AsksRace, Load as AsksLoad, Serve as AsksServe};
ghost use Rattle.serve_loop.specs.Ending.{status_of as served_status};
ghost use Rattle.switch_top.specs.Form.{form_of as asked, is_serve, reads_trace};
ghost use Rattle.switch_top.specs.Top.{Counts, HasRoom, IsByText, IsStatus, Loads, OfGiven, RaceShort, Serves, TellsSettings, TellsTrace, Writes, ports_of, served_text, settings_refusal};

use crate::form::{Form, form_of};
use control_core::Core;
use day_load::load_within;
use event_record::MOST_EVENTS;
use history_defs::MOST_OCTETS;
use outside_core::{NoGate, Sink, Source};
use outside_link::{Clock, Link};
use race_phases::race_within;
use race_run::{
    Ending, check_within, refusal_words, replay_within, say, say_ending, status, status_words,
};
use serve_loop::{Ending as Served, serve_within};
use std::alloc::Global;
use std::net::Net;
use std::sync::Wait;
use std::thread::Threads;

/// Runs the program of these words over a source, writes its output into `out` and what is said of
/// its status into `err`, and answers the status. `check` counts the records of a trace; `replay`
/// runs them on one thread, and `race W L` on W workers and L lanes. `load N` reads nothing, runs a
/// day of an office with N hosts, and tells what it came to. `serve A B C T` takes settings from
/// the source and serves what comes by the link, at the moments of the clock, for T turns.
pub fn switch_top<S, K, L, C, T>(
    rt: &T,
    alloc: Global,
    words: &[String],
    source: &mut S,
    out: &mut K,
    err: &mut K,
    link: &mut L,
    clock: &mut C,
) -> u8
where
    S: Source,
    K: Sink,
    L: Link,
    C: Clock,
    T: Threads + Wait + Net + Sync,
    // No other status comes. That of the words comes exactly where they are no form, and nothing
    // was read or written then.
    ensures statuses { IsStatus result }
    ensures usage { (result ≡ 2) ↔ (asked (map string_bytes words.now) ≡ None) }
    ensures unused { result ≡ 2 → (source.new ≡ source.old) × (out.new ≡ out.old) }
    ensures apart { is_serve (asked (map string_bytes words.now)) ≡ false
        → (link.new ≡ link.old) × (clock.new ≡ clock.old) }

    // The status is that of the text always, unless something outside failed or there was no
    // memory. A fault comes only where a count rose.
    ensures always { (Rose (S.faults source.old) (S.faults source.new) → ⊥)
        → (Rose (K.faults out.old) (K.faults out.new) → ⊥)
        → (Rose (L.faults link.old) (L.faults link.new) → ⊥)
        → result ≢ 1 → result ≢ 2 → IsByText result }
    ensures at_end { reads_trace (asked (map string_bytes words.now)) ≡ true → result ≡ 0
        → IsAtEnd (S.left source.new) }
    ensures read_fault { result ≡ 4 → Rose (S.faults source.old) (S.faults source.new) }
    ensures write_fault { result ≡ 5 → Rose (K.faults out.old) (K.faults out.new) }
    ensures link_fault { result ≡ 7 → (is_serve (asked (map string_bytes words.now)) ≡ true)
        × Rose (L.faults link.old) (L.faults link.new) }

    // `replay`: what was written is the output of the whole phases of the text; after a read fault
    // that of the phases that were given as a whole; after a write fault that of the phases before
    // the one of the last line that was given, and a part of its blocks; where there was no memory
    // that of the phases before the last line that was given.
    ensures replayed { asked (map string_bytes words.now) ≡ Some AsksReplay
        → Writes IsPlain IsPlain MOST_OCTETS MOST_EVENTS empty (S.left source.old)
        (S.left source.new) (K.taken out.old) (K.taken out.new) result }
    ensures replay_short { asked (map string_bytes words.now) ≡ Some AsksReplay → result ≡ 1
        → OfGiven (S.left source.old) (S.left source.new) (λ given.
        StopsShort IsPlain MOST_OCTETS MOST_EVENTS empty given (S.left source.new)
        (K.taken out.old) (K.taken out.new)) }

    // `race W L`: the same of the texts that are legal on W workers and L lanes. Of the phases
    // before one that was not written as a whole, and where there was no memory, all is said but
    // that each decision is right.
    ensures raced { (workers lanes : ℕ)
        → asked (map string_bytes words.now) ≡ Some (AsksRace workers lanes)
        → Writes (begun_by lanes workers) (legal_by lanes workers) MOST_OCTETS MOST_EVENTS empty
        (S.left source.old) (S.left source.new) (K.taken out.old) (K.taken out.new) result }
    ensures race_short { (workers lanes : ℕ)
        → asked (map string_bytes words.now) ≡ Some (AsksRace workers lanes) → result ≡ 1
        → RaceShort (begun_by lanes workers) MOST_OCTETS MOST_EVENTS empty (S.left source.old)
        (S.left source.new) (K.taken out.old) (K.taken out.new) }

    // `check`: the numbers of records and of control records were written where the text is one
    // that runs; after a write fault a part of them; and else nothing.
    ensures checked { asked (map string_bytes words.now) ≡ Some AsksCheck
        → Counts MOST_OCTETS MOST_EVENTS empty (S.left source.old) (S.left source.new)
        (K.taken out.old) (K.taken out.new) result }

    // `load N`: what a day of N hosts came to was written, a proper part of it, or nothing; nothing
    // was read.
    ensures loaded { (hosts : ℕ) → asked (map string_bytes words.now) ≡ Some (AsksLoad hosts)
        → Loads hosts (K.taken out.old) (K.taken out.new) result }
    ensures unread { (hosts : ℕ) → asked (map string_bytes words.now) ≡ Some (AsksLoad hosts)
        → source.new ≡ source.old }

    // `serve A B C T`: how T turns at these ports end, by the settings, by what was written and sent,
    // and by what came, where clock and link tell that.
    ensures served { (frames radius dynamic turns : ℕ)
        → asked (map string_bytes words.now) ≡ Some (AsksServe frames radius dynamic turns)
        → Serves MOST_OCTETS MOST_EVENTS turns (ports_of frames radius dynamic)
        (record {
          left = S.left source.old;
          taken = K.taken out.old;
          waits = L.waits link.old;
          sent = L.sent link.old;
          bound = L.bound link.old;
          moments = C.moments clock.old;
        })
        (record {
          left = S.left source.new;
          taken = K.taken out.new;
          waits = L.waits link.new;
          sent = L.sent link.new;
          bound = L.bound link.new;
          moments = C.moments clock.new;
        })
        result }

    // Where nothing outside failed, a trace that runs is run, a day is, and right settings are
    // served, unless there was no memory. A server may also have too many records for a history:
    // not where source, clock and link tell of fewer.
    ensures complete { reads_trace (asked (map string_bytes words.now)) ≡ true
        → TellsTrace MOST_OCTETS MOST_EVENTS (S.left source.old)
        → (Rose (S.faults source.old) (S.faults source.new) → ⊥)
        → (Rose (K.faults out.old) (K.faults out.new) → ⊥)
        → (result ≡ 0) ⊎ (result ≡ 1) }
    ensures complete_day { (hosts : ℕ)
        → asked (map string_bytes words.now) ≡ Some (AsksLoad hosts)
        → (Rose (K.faults out.old) (K.faults out.new) → ⊥)
        → (result ≡ 0) ⊎ (result ≡ 1) }
    ensures complete_server { is_serve (asked (map string_bytes words.now)) ≡ true
        → TellsSettings MOST_OCTETS (S.left source.old)
        → (Rose (S.faults source.old) (S.faults source.new) → ⊥)
        → (Rose (K.faults out.old) (K.faults out.new) → ⊥)
        → (Rose (L.faults link.old) (L.faults link.new) → ⊥)
        → (result ≡ 0) ⊎ (result ≡ 1) ⊎ (result ≡ 6) }
    ensures roomy { (frames radius dynamic turns : ℕ)
        → asked (map string_bytes words.now) ≡ Some (AsksServe frames radius dynamic turns)
        → HasRoom MOST_OCTETS MOST_EVENTS turns (S.left source.old) (C.moments clock.old)
        (L.waits link.old)
        → result ≢ 6 }

    // The text of the status was taken by `err`, all of it where its count did not rise.
    ensures said { result ≢ 3 → Says (K.taken err.old) (K.taken err.new)
        (K.faults err.old) (K.faults err.new) (status_text result) }
    ensures refused { reads_trace (asked (map string_bytes words.now)) ≡ true → result ≡ 3
        → OfText (S.left source.old) (λ b.
        Says (K.taken err.old) (K.taken err.new) (K.faults err.old) (K.faults err.new)
        (refusal_of MOST_OCTETS MOST_EVENTS empty b)) }
    ensures settings_refused { is_serve (asked (map string_bytes words.now)) ≡ true → result ≡ 3
        → OfText (S.left source.old) (λ b.
        Says (K.taken err.old) (K.taken err.new) (K.faults err.old) (K.faults err.new)
        (settings_refusal MOST_OCTETS b)) }
{
    match form_of(words) {
        None => {
            say(err, status_words(2));
            2
        }
        Some(Form::Check) => {
            let ending = check_within(rt, alloc, MOST_OCTETS, MOST_EVENTS as u64, source, out);
            told(err, ending)
        }
        Some(Form::Replay) => {
            let ending = replay_within::<Core, T, S, K>(
                rt,
                alloc,
                MOST_OCTETS,
                MOST_EVENTS as u64,
                source,
                out,
            );
            told(err, ending)
        }
        Some(Form::Race { workers, lanes }) => {
            let ending = race_within(
                rt,
                alloc,
                lanes,
                workers,
                MOST_OCTETS,
                MOST_EVENTS as u64,
                source,
                out,
            );
            told(err, ending)
        }
        Some(Form::Load { hosts }) => {
            let ending = load_within::<Core, T, NoGate, K>(rt, alloc, &NoGate, hosts, out);
            told(err, ending)
        }
        Some(
            Form::Serve {
                frames,
                radius,
                dynamic,
                turns,
            },
        ) => {
            let ending = serve_within::<Core, T, S, K, L, C>(
                rt,
                alloc,
                &[frames, radius, dynamic, radius + 1, radius + 2, radius + 3],
                turns,
                MOST_OCTETS,
                MOST_EVENTS as u64,
                source,
                out,
                link,
                clock,
            );
            told_served(err, ending)
        }
    }
}

// Says how a run ended, and answers the status.
fn told<K: Sink>(err: &mut K, ending: Ending) -> u8
    ensures status { result ≡ status_of ending }
    ensures said { Says (K.taken err.old) (K.taken err.new) (K.faults err.old) (K.faults err.new)
        (ending_text ending) }
{
    say_ending(err, ending);
    status(ending)
}

// The same of a server's run.
fn told_served<K: Sink>(err: &mut K, ending: Served) -> u8
    ensures status { result ≡ served_status ending }
    ensures said { Says (K.taken err.old) (K.taken err.new) (K.faults err.old) (K.faults err.new)
        (served_text ending) }
{
    say_served(err, ending);
    serve_loop::status(ending)
}

fn say_served<K: Sink>(err: &mut K, ending: Served)
    ensures said { Says (K.taken err.old) (K.taken err.new) (K.faults err.old) (K.faults err.new)
        (served_text ending) }
{
    match ending {
        Served::Refused { line, why } => say(err, &refusal_words(line, why)),
        _ => say(err, status_words(serve_loop::status(ending))),
    }
}
