//! The laws that tie the printed net to the reading, and a printed image to its bytes.

ghost use Rattle.dn_print.specs.Terms.{DumpIsOne, PrintableIsReadBack, ReadBack, TextsArePrintable};

/// The text of a net that came of a text is read and expanded to that net, with no commands, where
/// the same kinds of units are known.
///
/// It holds where the printed text is no longer than a text may be, 4,194,304 bytes.
pub fn printed_net_is_read_back()
    ensures { ReadBack }
{}

/// A net that came of a text is printable: what it is, by the net alone, for its text to be read
/// back.
pub fn net_of_a_text_is_printable()
    ensures { TextsArePrintable }
{}

/// The text of a printable net is read and expanded to that net, with no commands, where the same
/// kinds of units are known.
///
/// It holds where the printed text is no longer than a text may be, 4,194,304 bytes.
pub fn printable_net_is_read_back()
    ensures { PrintableIsReadBack }
{}

/// A printed image is the text of one image alone, so its bytes can be read off the text.
pub fn dump_is_one()
    ensures { DumpIsOne }
{}
