//! What values are found by.
ghost use Rattle.std.specs.Prelude.{◌≡◌, refl};
ghost use Rattle.std.specs.declared.cmp.Ordering.{Ordering};
ghost use Rattle.std.specs.FinMap.{IsAntisymmetric};

use sk_ids::{Entity, Name, ObjId};

/// What values are found by. Only equal keys tie.
pub trait Key: Ord + Copy {
    ghost order: { Self → Self → Ordering };

    ghost same: { Self.cmp ≡ order };

    ghost exact: { IsAntisymmetric Self.cmp };
}

impl Key for u8 {
    ghost use Rattle.std.specs.Ordering.{nat_cmp};
    ghost use Rattle.std.specs.FinMap.{nat_cmp-IsAntisymmetric};

    ghost order = { nat_cmp };

    ghost same = { refl };

    ghost exact = { nat_cmp-IsAntisymmetric };
}

impl Key for u16 {
    ghost use Rattle.std.specs.Ordering.{nat_cmp};
    ghost use Rattle.std.specs.FinMap.{nat_cmp-IsAntisymmetric};

    ghost order = { nat_cmp };

    ghost same = { refl };

    ghost exact = { nat_cmp-IsAntisymmetric };
}

impl Key for u32 {
    ghost use Rattle.std.specs.Ordering.{nat_cmp};
    ghost use Rattle.std.specs.FinMap.{nat_cmp-IsAntisymmetric};

    ghost order = { nat_cmp };

    ghost same = { refl };

    ghost exact = { nat_cmp-IsAntisymmetric };
}

impl Key for u64 {
    ghost use Rattle.std.specs.Ordering.{nat_cmp};
    ghost use Rattle.std.specs.FinMap.{nat_cmp-IsAntisymmetric};

    ghost order = { nat_cmp };

    ghost same = { refl };

    ghost exact = { nat_cmp-IsAntisymmetric };
}

impl<const N: usize> Key for [u8; N] {
    ghost use Rattle.std.specs.Ordering.{nat_cmp};
    ghost use Rattle.std.specs.Cmp.Lexicographic.{slice_cmp};
    ghost use Rattle.std.specs.FinMap.{nat_cmp-IsAntisymmetric, slice_cmp-IsAntisymmetric};

    ghost order = { slice_cmp nat_cmp };

    ghost same = { refl };

    ghost exact = { slice_cmp-IsAntisymmetric nat_cmp-IsAntisymmetric };
}

impl Key for Name {
    ghost use Rattle.std.specs.FinMap.{nat_cmp-IsAntisymmetric, slice_cmp-IsAntisymmetric};
    ghost use Rattle.sk_ids.specs.Name.{name_order};

    ghost order = { name_order };

    ghost same = { refl };

    ghost exact = { slice_cmp-IsAntisymmetric nat_cmp-IsAntisymmetric };
}

impl Key for Entity {
    ghost use Rattle.sk_ids.specs.Entity.{entity_cmp};
    ghost use Rattle.sk_ids.specs.EntityLemma.{entity_same};
    ghost use Rattle.sk_map.specs.KeyLemma.{entity_tells};

    ghost order = { entity_cmp };

    ghost same = { entity_same };

    ghost exact = { entity_tells };
}

impl Key for ObjId {
    ghost use Rattle.sk_ids.specs.Entity.{object_cmp};
    ghost use Rattle.sk_map.specs.KeyLemma.{object_same, object_tells};

    ghost order = { object_cmp };

    ghost same = { object_same };

    ghost exact = { object_tells };
}
