//! The image of a program: its entry and its segments, none of which a refusal speaks against.
ghost use Rattle.std.specs.Prelude.{◌≡◌, List};
ghost use Rattle.elf32_reader.specs.LoadImage.{LoadImage, IsSound};

use crate::image_segment::ImageSegment;
use std::marker::Model;

/// A program as it is loaded: where thread 0 begins, and the segments in the order of the file, each on
/// pages above those of the one before. It has at most 16,384 pages, and the page of the entry is
/// executable.
#[derive(Debug, Drop)]
pub struct Image {
    entry: u32,
    segments: Vec<ImageSegment>,
}

impl Model for Image {
    ghost Value = { LoadImage };

    ghost view = { λ i. record { entry = i.entry; segments = i.segments.items } };

    ghost invariant = { λ i. IsSound (record { entry = i.entry; segments = i.segments.items }) };
}

impl Image {
    /// An image of these parts.
    pub fn new(entry: u32, segments: Vec<ImageSegment>) -> Self
        requires { IsSound (record { entry = entry; segments = segments.items }) }
        ensures { result ≡ record { entry = entry; segments = segments.items } }
    {
        Image { entry, segments }
    }

    /// Where thread 0 begins, a multiple of 4.
    pub fn entry(&self) -> u32
        ensures entry { result ≡ self.now.entry }
        ensures sound { IsSound self.now }
    {
        self.entry
    }

    /// The segments, in the order of the file.
    pub fn segments(&self) -> &[ImageSegment]
        ensures segments { result.now ≡ self.now.segments }
        ensures sound { IsSound self.now }
    {
        &self.segments
    }
}
