// The forms of the program's words.
ghost use Rattle.std.specs.Prelude.{◌≡◌, ◌≤◌, map, string_bytes, IfSome};
ghost use Rattle.wire_defs.specs.Number.{number_in};
ghost use Rattle.switch_top.specs.Form as asked;
ghost use Rattle.switch_top.specs.Form.{IsInRange};

use day_defs::MOST_HOSTS;
use wire_core::decimal;

/// What the words of a command line ask for.
#[derive(Clone, Copy, Debug, PartialEq, Eq)]
pub enum Form {
    /// `check`: the records of a trace are counted.
    Check,
    /// `replay`: a trace is run on one thread.
    Replay,
    /// `race W L`: a trace is run on 1 to 8 workers and 1 to 3 lanes.
    Race {
        workers: usize,
        lanes: u8,
    },
    /// `load N`: a day of an office with 1 to 240 hosts is run.
    Load {
        hosts: u8,
    },
    /// `serve A B C T`: frames, RADIUS and dynamic requests are served on these ports of UDP, for 1
    /// to 100,000,000 turns. RADIUS has its port, 1 to 65,532, and the three that follow it. The six
    /// are distinct.
    Serve {
        frames: u16,
        radius: u16,
        dynamic: u16,
        turns: u32,
    },
}

/// The form of these words, which do not have the program's own name; none where they ask for
/// nothing that there is.
pub fn form_of(words: &[String]) -> Option<Form>
    ensures form { result ≡ asked.form_of (map string_bytes words.now) }
    ensures range { IfSome result IsInRange }
{
    match words {
        [word] => alone(octets(word)),
        [word, n] => two(octets(word), octets(n)),
        [word, w, l] => three(octets(word), octets(w), octets(l)),
        [word, a, b, c, t] => five(octets(word), octets(a), octets(b), octets(c), octets(t)),
        _ => None,
    }
}

fn octets(word: &String) -> &[u8]
    ensures { result.now ≡ string_bytes word.now }
{
    word.as_str().as_bytes()
}

fn alone(word: &[u8]) -> Option<Form>
    ensures form { result ≡ asked.alone word.now }
    ensures range { IfSome result IsInRange }
{
    if word == b"check".as_slice() {
        Some(Form::Check)
    } else if word == b"replay".as_slice() {
        Some(Form::Replay)
    } else {
        None
    }
}

fn two(word: &[u8], n: &[u8]) -> Option<Form>
    ensures form { result ≡ asked.two word.now n.now }
    ensures range { IfSome result IsInRange }
{
    if word == b"load".as_slice() {
        loaded(n)
    } else {
        None
    }
}

fn loaded(n: &[u8]) -> Option<Form>
    ensures form { result ≡ asked.loaded n.now }
    ensures range { IfSome result IsInRange }
{
    let hosts = number(n, 1, u32::from(MOST_HOSTS))?;
    Some(Form::Load { hosts: hosts as u8 })
}

fn three(word: &[u8], w: &[u8], l: &[u8]) -> Option<Form>
    ensures form { result ≡ asked.three word.now w.now l.now }
    ensures range { IfSome result IsInRange }
{
    if word == b"race".as_slice() {
        raced(w, l)
    } else {
        None
    }
}

fn raced(w: &[u8], l: &[u8]) -> Option<Form>
    ensures form { result ≡ asked.raced w.now l.now }
    ensures range { IfSome result IsInRange }
{
    let workers = number(w, 1, 8)?;
    let lanes = number(l, 1, 3)?;
    Some(Form::Race {
        workers: workers as usize,
        lanes: lanes as u8,
    })
}

fn five(word: &[u8], a: &[u8], b: &[u8], c: &[u8], t: &[u8]) -> Option<Form>
    ensures form { result ≡ asked.five word.now a.now b.now c.now t.now }
    ensures range { IfSome result IsInRange }
{
    if word == b"serve".as_slice() {
        served(a, b, c, t)
    } else {
        None
    }
}

fn served(a: &[u8], b: &[u8], c: &[u8], t: &[u8]) -> Option<Form>
    ensures form { result ≡ asked.served a.now b.now c.now t.now }
    ensures range { IfSome result IsInRange }
{
    let frames = number(a, 1, 65535)?;
    let radius = number(b, 1, 65532)?;
    let dynamic = number(c, 1, 65535)?;
    let turns = number(t, 1, 100_000_000)?;
    serving(frames as u16, radius as u16, dynamic as u16, turns)
}

fn serving(frames: u16, radius: u16, dynamic: u16, turns: u32) -> Option<Form>
    requires { radius ≤ 65532 }
    ensures form { result ≡ asked.serving frames radius dynamic turns }
    ensures range { IfSome result IsInRange }
{
    if is_apart(frames, radius, dynamic) {
        Some(Form::Serve {
            frames,
            radius,
            dynamic,
            turns,
        })
    } else {
        None
    }
}

fn is_apart(frames: u16, radius: u16, dynamic: u16) -> bool
    requires { radius ≤ 65532 }
    ensures { result ≡ asked.is_apart frames radius dynamic }
{
    let sockets = radius..=radius + 3;
    frames != dynamic && !sockets.contains(&frames) && !sockets.contains(&dynamic)
}

// A number in a range.
fn number(text: &[u8], least: u32, most: u32) -> Option<u32>
    ensures value { result ≡ number_in least most text.now }
    ensures range { IfSome result (λ n. (least ≤ n) × (n ≤ most)) }
{
    let n = decimal(text, u64::from(least), u64::from(most))?;
    Some(n as u32)
}
