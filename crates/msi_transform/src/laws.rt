//! Laws of transforms: each is the contract of a function without a body.

ghost use Rattle.msi_transform.specs.TransformFiles.{OneTransform, TransformsAreRead};
ghost use Rattle.msi_transform.specs.WrittenTransforms.{WrittenTransformsReadBack};

/// The contents of a file are at most one transform.
pub fn one_transform()
    ensures { OneTransform }
{}

/// Where the contents of a file are a transform, no step of reading it fails.
pub fn transforms_are_read()
    ensures { TransformsAreRead }
{}

/// The file that is written of a transform reads as the transform.
pub fn written_transforms_read_back()
    ensures { WrittenTransformsReadBack }
{}
