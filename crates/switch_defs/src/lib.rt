//! The sequential authenticator as definitions: the state of the switch, its turns and its
//! decisions. They stand in specs/, with their laws; here are the plain types that they speak of.
#![tactic(auto)]

ghost use Rattle.switch_defs.specs.History.{EndedForGood, NumberedOnce};
ghost use Rattle.switch_defs.specs.Laws.{AnswersMaySettle, AnswersNameSessions, AsksOnce, DynamicsNameSessions, FramesMaySettle, HistoriesAreSound, NumbersFit, OpeningIsSound, RestsAgain, SecondsMaySettle, SessionsAreFew, SoundIsBetween, TurnsAreSound};

/// Each state that a history leads to is sound: the opening is, and each turn keeps it so.
pub fn states_of_histories_are_sound()
    ensures opening { OpeningIsSound }
    ensures turns { TurnsAreSound }
    ensures histories { HistoriesAreSound }
    ensures sessions { SessionsAreFew }
    ensures numbers { NumbersFit }
{}

/// Each session that a turn settles may be settled: every other session is at rest, and so is this one afterwards. Where
/// the server is asked, the session has no request that waits, and there is room for one more.
pub fn sessions_may_be_settled()
    ensures between { SoundIsBetween }
    ensures frames { FramesMaySettle }
    ensures answers { AnswersMaySettle }
    ensures seconds { SecondsMaySettle }
    ensures asks { AsksOnce }
    ensures rests { RestsAgain }
{}

/// An answer that is taken, and a dynamic request that is acknowledged, is of a session that there is.
pub fn answers_are_of_sessions()
    ensures answers { AnswersNameSessions }
    ensures dynamics { DynamicsNameSessions }
{}

/// In no history does a session's number come twice, and one that was ended is authorised no more.
pub fn numbers_are_used_once()
    ensures once { NumberedOnce }
    ensures ended { EndedForGood }
{}
