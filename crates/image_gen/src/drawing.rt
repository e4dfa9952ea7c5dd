//! The numbers that are drawn, and the lines that they make.

ghost use Rattle.std.specs.Prelude.{◌≡◌, ◌<◌, ◌^◌};
ghost use Rattle.image_gen.specs.GeneratedLog.{ask_after, drawn, entry_by, invlpg_after, line_after, next_state, numbered_line, page_drawn, set_after, write_after};

use crate::lines::Line;
use crate::tables::{PAGE_SIZE, open_entry, page, slot};
use paging_model::access::Access;

/// How many numbers a state is one of.
const STATES: u64 = 0x8000_0000;

/// The kinds of access, by the number that is drawn.
const KINDS: [Access; 8] = [
    Access::Ur,
    Access::Uw,
    Access::Ux,
    Access::Sr,
    Access::Sw,
    Access::Sx,
    Access::Ir,
    Access::Iw,
];

/// A linear congruential generator, whose high bits are drawn.
#[derive(Debug, Drop)]
pub(crate) struct Generator {
    state: u32,
}

impl Generator {
    /// A generator that begins with a seed.
    pub(crate) fn new(seed: u32) -> Generator
        ensures { result.state ≡ seed }
    {
        Generator { state: seed }
    }

    /// Draws a number below a limit.
    fn draw(&mut self, limit: u32) -> u32
        requires { 0 < limit }
        ensures state { self.new.state ≡ next_state self.old.state }
        ensures value { result ≡ drawn limit (next_state self.old.state) }
        ensures below { result < limit }
    {
        self.state = ((1_103_515_245 * u64::from(self.state) + 12_345) % STATES) as u32;
        self.state / 65_536 % limit
    }

    /// The line with a number, from 1 on.
    pub(crate) fn line(&mut self, number: u32) -> Line
        ensures value { result ≡ (numbered_line number self.old.state).0 }
        ensures state { self.new.state ≡ (numbered_line number self.old.state).1 }
    {
        match number % 1000 {
            0 => Line::Point,
            1 => Line::LoseAll { cpu: 0 },
            2 => Line::LoseAll { cpu: 1 },
            500 => Line::List,
            _ => self.drawn_line(),
        }
    }

    /// A line whose form is drawn, and then what it is about.
    fn drawn_line(&mut self) -> Line
        ensures value { result ≡ (line_after self.old.state).0 }
        ensures state { self.new.state ≡ (line_after self.old.state).1 }
    {
        match self.draw(8) {
            0..=3 => self.write(),
            4 => self.invlpg(),
            6 => self.set_root(),
            _ => self.ask(),
        }
    }

    /// A write of an entry that maps its page in the core.
    fn write(&mut self) -> Line
        ensures value { result ≡ (write_after self.old.state).0 }
        ensures state { self.new.state ≡ (write_after self.old.state).1 }
    {
        let i = self.draw(16);
        let j = self.draw(512);
        let form = self.draw(4);
        Line::Write {
            slot: slot(i, j),
            entry: entry_by(page(i, j), form),
        }
    }

    /// An INVLPG of a page.
    fn invlpg(&mut self) -> Line
        ensures value { result ≡ (invlpg_after self.old.state).0 }
        ensures state { self.new.state ≡ (invlpg_after self.old.state).1 }
    {
        let cpu = self.draw(2);
        let address = self.page();
        Line::Invlpg { cpu, address }
    }

    /// An access of a kind to a page.
    fn ask(&mut self) -> Line
        ensures value { result ≡ (ask_after self.old.state).0 }
        ensures state { self.new.state ≡ (ask_after self.old.state).1 }
    {
        let cpu = self.draw(2);
        let access = KINDS[self.draw(8) as usize];
        let pointer = self.page();
        Line::Ask {
            cpu,
            access,
            pointer,
        }
    }

    /// A write of the root to CR3.
    fn set_root(&mut self) -> Line
        ensures value { result ≡ (set_after self.old.state).0 }
        ensures state { self.new.state ≡ (set_after self.old.state).1 }
    {
        Line::SetRoot { cpu: self.draw(2) }
    }

    /// The linear address of a page.
    fn page(&mut self) -> u64
        ensures value { result ≡ page_drawn (next_state self.old.state) }
        ensures state { self.new.state ≡ next_state self.old.state }
    {
        PAGE_SIZE * u64::from(self.draw(8192))
    }
}

/// What becomes of an entry: it permits everything, no write, no user, or is no more there.
fn entry_by(frame: u64, form: u32) -> u64
    requires { frame < 2 ^ 32 }
    ensures { result ≡ entry_by frame form }
{
    match form {
        0 => open_entry(frame),
        1 => frame + 5,
        2 => frame + 3,
        _ => 0,
    }
}
