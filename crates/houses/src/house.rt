ghost use Rattle.std.specs.Prelude.{◌≡◌, ◌≤◌, List, length};
ghost use Rattle.std.specs.List.{slice_get};
ghost use Rattle.network.specs.Cables.{Lawful};
ghost use Rattle.network.specs.declared.cable.Cable.{Cable as Wire};

use network::cable::Cable;

/// The cables that a theatre has of its own. A house means a list of at most 256 lawful cables, counted from place 0.
/// Asking changes nothing and is never refused, and the same question has the same answer.
pub trait House {
    ghost cables: { Self → List Wire };

    ghost few: { (h : Self) → length (cables h) ≤ 256 };

    ghost lawful: { (h : Self) → Lawful (cables h) };

    /// How many cables there are.
    fn count(&self) -> u16
        ensures { result ≡ length (cables self.now) };

    /// The cable at a place, absent past the last.
    fn cable(&self, place: u16) -> Option<Cable>
        ensures { result ≡ slice_get (cables self.now) place };
}
