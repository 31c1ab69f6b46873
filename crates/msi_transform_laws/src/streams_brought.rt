//! The streams of a transform that is made.

ghost use Rattle.msi_transform_laws.specs.StreamsBrought.{MadeStreamsAreBrought};

/// Each record of a transform that is made that has a stream finds it there, under the name of its row's stream.
pub fn made_streams_are_brought()
    ensures { MadeStreamsAreBrought }
{}
