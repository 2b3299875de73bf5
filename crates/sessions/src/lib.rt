// The eight links and the key that each may hold: document 01, "A link is idle or holds a key K in one stage".
#![tactic(auto)]

ghost use Rattle.std.specs.Prelude.{◌≡◌, ◌<◌, length};
ghost use Rattle.sessions.specs.Sessions.{link_count, stage_number, IsStageOf, is_stage, becomes, idle, has_timer, at_clock, all_idle, session_at, with_session, expired};

use basics::{Link, Moment};

// The number of links: 0 to 7 exist.
pub const LINKS: usize = 8;

// How long a timed stage lasts, in milliseconds.
const TIME_LIMIT: u64 = 10000;

// Document 01's stages; an idle link is in none.
#[derive(Clone, Copy, PartialEq, Eq)]
pub enum Stage {
    Idle,
    Asked,
    Pairing,
    Confirming,
    Proved,
    Paired,
}

// What one link holds: when its stage began, our passkey while it is to be confirmed, the stage and the session key K. In this
// order it has the fewest gaps.
#[derive(Clone, Copy)]
pub struct Session {
    pub since: Moment,
    pub passkey: u32,
    pub stage: Stage,
    pub key: [u8; 16],
}

#[derive(Clone, Copy)]
pub struct Sessions {
    pub links: [Session; LINKS],
}

impl Stage {
    // Pairing and proved have no timer, and an idle link has none.
    fn timed(self) -> bool
        ensures { result ≡ has_timer self }
    {
        matches!(self, Stage::Asked | Stage::Confirming | Stage::Paired)
    }

    // The number of a stage, as C is handed it.
    pub fn number(self) -> u8
        ensures { result ≡ stage_number self }
    {
        match self {
            Stage::Idle => 0,
            Stage::Asked => 1,
            Stage::Pairing => 2,
            Stage::Confirming => 3,
            Stage::Proved => 4,
            Stage::Paired => 5,
        }
    }
}

// A number that no stage has.
#[derive(Clone, Copy, PartialEq, Eq)]
pub struct UnknownStage(pub u8);

impl TryFrom<u8> for Stage {
    type Error = UnknownStage;

    ghost try_from_gives = { IsStageOf };

    fn try_from(number: u8) -> Result<Stage, UnknownStage> {
        match number {
            0 => Ok(Stage::Idle),
            1 => Ok(Stage::Asked),
            2 => Ok(Stage::Pairing),
            3 => Ok(Stage::Confirming),
            4 => Ok(Stage::Proved),
            5 => Ok(Stage::Paired),
            _ => Err(UnknownStage(number)),
        }
    }
}

impl Session {
    pub fn idle() -> Session
        ensures { result ≡ idle }
    {
        Session {
            stage: Stage::Idle,
            key: [0u8; 16],
            since: Moment(0),
            passkey: 0,
        }
    }

    // Whether the session is in a stage; an idle one is in `Idle`.
    pub fn is_in(self, stage: Stage) -> bool
        ensures { result ≡ is_stage self.stage stage }
    {
        self.stage == stage
    }

    // The session in its next stage, which begins at a moment.
    pub fn moved(self, stage: Stage, now: Moment) -> Session
        ensures { result ≡ becomes stage now.0 self }
    {
        Session {
            stage,
            since: now,
            passkey: 0,
            ..self
        }
    }

    // The session as it stands at a moment: a timed stage that began 10,000 ms ago has lapsed.
    #[tactic(auto, unfolding(crate::specs::Sessions::at_clock))]
    fn at_clock(self, now: Moment) -> Session
        ensures { result ≡ at_clock now.0 self }
    {
        if !self.stage.timed() || basics::ago(now, self.since) < TIME_LIMIT {
            return self;
        }
        Session::idle()
    }
}

impl Sessions {
    pub fn all_idle() -> Sessions
        ensures { result ≡ all_idle }
    {
        Sessions {
            links: [Session::idle(); LINKS],
        }
    }

    pub fn at(self, link: Link) -> Session
        requires { link.0 < link_count }
        ensures { result ≡ session_at self link.0 }
    {
        self.links[link.0 as usize]
    }

    pub fn with(mut self, link: Link, session: Session) -> Sessions
        requires { link.0 < link_count }
        ensures { result ≡ with_session self link.0 session }
    {
        self.links[link.0 as usize] = session;
        self
    }

    // What the clock step does to the links.
    pub fn expire(mut self, now: Moment) -> Sessions
        requires { length self.links ≡ link_count }
        ensures { result ≡ expired now.0 self }
    {
        for session in self.links.iter_mut() {
            *session = session.at_clock(now);
        }
        self
    }
}
