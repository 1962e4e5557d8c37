//! Laws on images, each the contract of a function that does nothing.

ghost use Rattle.dn_image.specs.Terms.{BytesOfNumber, ImageIsRead, ReadIsImage};

/// Bytes are those of the number that they spell, the lowest first: eight bytes those of a word.
pub fn bytes_of_number()
    ensures { BytesOfNumber }
{}

/// The image of tables, in either version, is read as these tables and this version.
pub fn image_is_read()
    ensures { ImageIsRead }
{}

/// Bytes that are read are the image of the tables and the version that they are read as.
pub fn read_is_image()
    ensures { ReadIsImage }
{}
