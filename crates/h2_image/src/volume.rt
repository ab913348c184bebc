use h2_checkpoint::VolumeFormat;

/// The format of this project's volumes, as a type that stands for it.
pub struct Volume;

impl VolumeFormat for Volume {
    ghost use Rattle.h2_image.specs.VolumeFormat.{volume};

    ghost format = { volume };
}
