ghost use Rattle.std.specs.Prelude.{◌≤◌, map};
ghost use Rattle.network.specs.Cables.{Lawful};
ghost use Rattle.arrayvec.specs.ArrayVec.{array_vec_len};

use arrayvec::ArrayVec;
pub use network::cable::TourCable;

/// The tour's cables in laying order, at most 256, all lawful.
#[derive(Drop)]
pub struct Tour {
    pub(crate) rows: ArrayVec<TourCable, 256>,
    ghost few: { array_vec_len rows ≤ 256 },
    ghost lawful: { Lawful (map (λ x. x.cable) rows.items) },
}
