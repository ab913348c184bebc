use super::*;

// The trees of a new volume.
struct NewVolume;

impl Reading for NewVolume {
    ghost use Rattle.h2_meaning.specs.Example.{new_volume};

    ghost access = { new_volume };
}

impl Change for NewVolume {
    ghost use Rattle.h2_meaning.specs.Example.{unchanged};

    ghost passage = { unchanged };
}

// A new volume stands for one forest, and for the same one where nothing changed. The worked values are in
// the contracts of the laws.
#[test]
fn laws_hold_of_a_new_volume() {
    one_meaning_law::<NewVolume>();
    order_law::<NewVolume>();
    leaf_law::<NewVolume>();
    carry_law::<NewVolume>();
    new_volume_law();
    new_image_law();
    one_block_law();
    one_entry_law();
    image_law();
    one_loaded_law();
    loaded_law();
    replaced_law();
}
