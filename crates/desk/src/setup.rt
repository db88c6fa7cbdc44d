ghost use Rattle.std.specs.Prelude.{◌≡◌, [], map};
ghost use Rattle.houses.specs.Sheets.{meaning, cables_of};
ghost use Rattle.desk.specs.Setups.{sheet_reply, setup_reply, bytes_after, shift_after};

use crate::reply::Reply;
use houses::sheet::Sheet;
use houses::shift::Shift;
use script::command::Command;
use std::alloc::Global;

/// What is told of the house before a plan is begun: the bytes of its sheet, and the shift over it.
#[derive(Drop)]
pub struct Setup {
    bytes: Vec<u8>,
    by: u8,
}

impl Setup {
    /// An empty sheet and no shift.
    pub fn new(heap: Global) -> Self
        ensures bytes { result.bytes.items ≡ [] }
        ensures by { result.by ≡ 0 }
    {
        Setup {
            bytes: Vec::new(heap),
            by: 0,
        }
    }

    /// Does what a command says before a plan is begun. A sheet that is refused leaves the one before it, and `begin` is
    /// answered that the plan is open: the caller begins it.
    pub fn play(&mut self, command: Command) -> Reply
        ensures reply { result ≡ setup_reply command }
        ensures bytes { self.new.bytes.items ≡ bytes_after self.old.bytes.items command }
        ensures by { self.new.by ≡ shift_after self.old.by command }
    {
        match command {
            Command::House(bytes) => {
                let surveyed = Sheet::empty().load(bytes.as_slice());
                match surveyed {
                    Ok(count) => {
                        self.bytes = bytes;
                        Reply::House(count)
                    }
                    Err(misread) => Reply::Misread(misread),
                }
            }
            Command::Shift(by) => {
                self.by = by;
                Reply::Shift(by)
            }
            Command::Begin => Reply::Open,
            _ => Reply::NotNow,
        }
    }

    /// The house: the sheet, with the shift over it.
    pub fn house(&self) -> Shift<Sheet<'_>>
        ensures sheet { cables_of (meaning result.house.bytes.now) ≡ cables_of (meaning self.now.bytes.items) }
        ensures by { result.by ≡ self.now.by }
    {
        // An empty sheet that loads, here and wherever one is made: it can't fail to be, and a refused load keeps what it had.
        let mut sheet = Sheet::empty();
        let _ = sheet.load(self.bytes.as_slice());
        Shift::over(sheet, self.by)
    }
}
