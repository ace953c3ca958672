// Prints what the pick hands back, a line a case, for the comparison with the stored output: a word, or an empty line where the pick is refused.
// A word in small letters beside the same one in capitals shows which of two equal words came back.

#![tactic(auto)]

use settings::Settings;
use std::io::{self, Write};

fn show<W: Write>(
    out: &mut W,
    letters: &[u8],
    k: usize,
    mirror: u64,
    first: &[u8],
    second: &[u8],
) -> io::Result<()> {
    let settings = Settings { letters, k, mirror };
    out.write_all(words::pick(&settings, first, second))?;
    out.write_all(b"\n")
}

// The first of two words with the same plain rank.
fn equal_words<W: Write>(out: &mut W) -> io::Result<()> {
    show(out, b"ACGT", 4, 1, b"ACGT", b"acgt")?;
    show(out, b"ACGT", 4, 1, b"acgt", b"ACGT")?;
    Ok(())
}

// The lower plain rank wins, under the alphabet that is given.
fn lower_words<W: Write>(out: &mut W) -> io::Result<()> {
    show(out, b"ACGT", 4, 0, b"ACGT", b"TGCA")?;
    show(out, b"ACGT", 4, 0, b"TGCA", b"ACGT")?;
    show(out, b"ACGT", 1, 1, b"t", b"A")?;
    show(out, b"TGCA", 1, 1, b"t", b"A")?;
    show(out, b"AB", 3, 0, b"ABA", b"AAB")?;
    Ok(())
}

// Words of the largest k.
fn long_words<W: Write>(out: &mut W) -> io::Result<()> {
    show(
        out,
        b"ACGT",
        31,
        1,
        b"GTTTTTTTTTTTTTTTTTTTTTTTTTTTTTA",
        b"TAAAAAAAAAAAAAAAAAAAAAAAAAAAAAC",
    )?;
    show(
        out,
        b"ACGT",
        31,
        0,
        b"TTTTTTTTTTTTTTTTTTTTTTTTTTTTTTT",
        b"TTTTTTTTTTTTTTTTTTTTTTTTTTTTTTG",
    )?;
    Ok(())
}

// Grounds 1, 2 and 4: an empty part.
fn bad_settings<W: Write>(out: &mut W) -> io::Result<()> {
    show(out, b"ACGA", 2, 0, b"AC", b"CA")?;
    show(out, b"ACGT", 2, 2, b"AC", b"CA")?;
    show(out, b"ACGT", 0, 1, b"", b"")?;
    show(
        out,
        b"ACGT",
        32,
        0,
        b"AAAAAAAAAAAAAAAAAAAAAAAAAAAAAAAA",
        b"AAAAAAAAAAAAAAAAAAAAAAAAAAAAAAAA",
    )?;
    Ok(())
}

// Grounds 5 and 9 of the first word and of the second: an empty part.
fn bad_words<W: Write>(out: &mut W) -> io::Result<()> {
    show(out, b"ACGT", 2, 0, b"ACG", b"CA")?;
    show(out, b"ACGT", 2, 0, b"AC", b"C")?;
    show(out, b"ACGT", 2, 0, b"AN", b"CA")?;
    show(out, b"ACGT", 2, 0, b"AC", b"N>")?;
    Ok(())
}

// Drawn words, whose answers an independent reference gave.
fn drawn_words<W: Write>(out: &mut W) -> io::Result<()> {
    show(out, b"KLMNOPQRSTUVWXYZ", 5, 0, b"LYYWT", b"xXMYR")?;
    show(
        out,
        b"MNOPQRSTUVWXYZ",
        16,
        1,
        b"RXNTxWRSQXZWOvQZ",
        b"rxntXwrsqxzwoVqz",
    )?;
    show(out, b"ABCDEFGHIJKLM", 6, 0, b"MDHCeA", b"MDHCeG")?;
    show(out, b"EGVCKD", 5, 0, b"CVGEE", b"CVGEV")?;
    show(out, b"HUZYTELQWOC", 4, 0, b"LwWt", b"EThH")?;
    Ok(())
}

// An independent reference's answers under complement with odd s (document 02, K10), all of them save one that K2 changed, which is with those of K2.

// Equal words.
fn equal_words_of_odd_alphabets<W: Write>(out: &mut W) -> io::Result<()> {
    show(out, b"YINXHTU", 9, 1, b"NHIHnNTNH", b"nhihNntnh")?;
    show(
        out,
        b"BWYATLZEKOJDVQI",
        15,
        1,
        b"OKKETYYQIWTDTBI",
        b"okketyyqiwtdtbi",
    )?;
    show(
        out,
        b"RBACWUHONKETIMJ",
        15,
        1,
        b"BMOWWAMOKMAJKRK",
        b"bmowwamokmajkrk",
    )?;
    show(out, b"ABCDEFGHIJKLM", 6, 1, b"ILDKMC", b"ildkmc")?;
    Ok(())
}

// The second is lower.
fn lower_second_words_of_odd_alphabets<W: Write>(out: &mut W) -> io::Result<()> {
    show(out, b"BQLMP", 4, 1, b"PQMB", b"LBLB")?;
    show(
        out,
        b"AZVITEBDN",
        19,
        1,
        b"TZBVETBABEBEVTIBVDT",
        b"INZZANNEZAEtEZInbTB",
    )?;
    show(
        out,
        b"YJGFZEUPVKXLSIB",
        15,
        1,
        b"BJZPxJEIIUXlXIY",
        b"VEUKZFLYBLXEVKu",
    )?;
    show(
        out,
        b"DOFBREQVWUTCX",
        16,
        1,
        b"BQXBUfEXrFWBWEET",
        b"OUDTTUOVRDoXFXBC",
    )?;
    Ok(())
}

// The first is lower: short words.
fn lower_first_words_of_odd_alphabets<W: Write>(out: &mut W) -> io::Result<()> {
    show(out, b"MYJKLVTHW", 1, 1, b"L", b"w")?;
    show(out, b"TPLWJXZKSYF", 2, 1, b"Kt", b"KJ")?;
    show(out, b"TZFMVNB", 3, 1, b"BZV", b"BZN")?;
    show(out, b"UTAPJNSQHGCYZ", 4, 1, b"HNQA", b"HNQQ")?;
    show(out, b"ABCDEFGHI", 4, 1, b"IGAa", b"IGAC")?;
    Ok(())
}

// The first is lower: longer words.
fn lower_first_long_words_of_odd_alphabets<W: Write>(out: &mut W) -> io::Result<()> {
    show(out, b"MDVTYBP", 7, 1, b"BMBBMYd", b"BMBBMYV")?;
    show(out, b"XYZ", 9, 1, b"yYZYYZZZX", b"yYZYYZZZY")?;
    show(out, b"HMSOU", 10, 1, b"MoHOSOMSSH", b"MoHOSOMSSO")?;
    show(
        out,
        b"DOYZSFPVU",
        15,
        1,
        b"FOODVPPZVuZFDFF",
        b"uFOOyPOPUYPVVZD",
    )?;
    show(
        out,
        b"LFZBHTSXUAP",
        17,
        1,
        b"TPLHTLHZLPXTXHHUL",
        b"TPLHTLHZLPXTXHHUX",
    )?;
    Ok(())
}

// Refused: words of another length, or with a byte that is no letter.
fn bad_words_of_odd_alphabets<W: Write>(out: &mut W) -> io::Result<()> {
    show(out, b"ABC", 2, 1, b"B", b"CA")?;
    show(out, b"LMNOPQRSTUVWXYZ", 4, 1, b"XtYVA", b"TRVR")?;
    show(
        out,
        b"LPNKFAGSIVQDB",
        16,
        1,
        b"FDBFDvKVPPSgLBpUA",
        b"VAISQGDSpVKQFAIA",
    )?;
    show(
        out,
        b"ABCDEFGHIJK",
        17,
        1,
        b"IFBJHBdEIUfKIjKBIA",
        b"IFBJHBdEIUfKIjKBIF",
    )?;
    Ok(())
}

// Refused: longer words.
fn bad_long_words_of_odd_alphabets<W: Write>(out: &mut W) -> io::Result<()> {
    show(
        out,
        b"WALTOIX",
        19,
        1,
        b"XIALLTioWlWATIwOIoA",
        b"ILIaLOTTLTONTLOIAOA",
    )?;
    show(
        out,
        b"JSP",
        39,
        1,
        b"SPSJpSPSsSJPJPJpJjSJJJSJPJJPJJ\nsJSJPSJS",
        b"SPSJpSPSsSJPJPJpJjSJJJSJPJJPJJ\nsJSJPSJS",
    )?;
    show(
        out,
        b"ABC",
        39,
        1,
        b"AACBCBCCAAACBAAAAtCCBCBcCABAAcABUBABACC",
        b"AACBCBCCAAACBAAAAtCCBCBcCABAAcABUBABACC",
    )?;
    Ok(())
}

// Where the letters have T and no U, U is read as T (document 02, K2), and the word that comes back is as it was given. The first of two equal words, and
// letters in which U has its own rank or none.
fn words_with_u<W: Write>(out: &mut W) -> io::Result<()> {
    show(out, b"ACGT", 2, 1, b"uA", b"TA")?;
    show(out, b"ACGT", 2, 1, b"TA", b"UA")?;
    show(out, b"ACGT", 2, 1, b"UC", b"TA")?;
    show(out, b"TU", 1, 0, b"U", b"T")?;
    show(out, b"ACGU", 1, 0, b"U", b"T")?;
    show(out, b"ACG", 1, 0, b"U", b"A")?;
    Ok(())
}

// An independent reference's answers with K2, all of them; last, a call of K10's, refused then for its u, of which the answer is worked out anew.
fn drawn_words_with_u<W: Write>(out: &mut W) -> io::Result<()> {
    show(out, b"RT", 15, 1, b"TRTRuTRRTRTrTTR", b"RRRTTRRTRRTRTTT")?;
    show(out, b"ACGT", 2, 0, b"Tu", b"CG")?;
    show(
        out,
        b"TN",
        49,
        1,
        b"nTNNttNTNNNNTNtNnTnNTTTTTNNNNNTtNNTTTTNTTTTnTtTNn",
        b"TNTnNTTNNNNtnuNNNNTTnTNNTNnTttNTTtNTNNTNTNNTtNNNT",
    )?;
    show(
        out,
        b"IMZVSHDLRTX",
        17,
        0,
        b"SHrLZNXIZLsSMVHhS",
        b"VLvLRMVUIVMHRHTHZ",
    )?;
    show(
        out,
        b"TBPIM",
        26,
        1,
        b"PpITIBMMPBIPBBPIIuPTTPPTPM",
        b"PpITIBMMPBIPBBPIIuPTTPPTPI",
    )?;
    Ok(())
}

fn main(rt: HostRuntime) -> io::Result<()> {
    let mut out = rt.stdout();
    equal_words(&mut out)?;
    lower_words(&mut out)?;
    long_words(&mut out)?;
    bad_settings(&mut out)?;
    bad_words(&mut out)?;
    drawn_words(&mut out)?;
    equal_words_of_odd_alphabets(&mut out)?;
    lower_second_words_of_odd_alphabets(&mut out)?;
    lower_first_words_of_odd_alphabets(&mut out)?;
    lower_first_long_words_of_odd_alphabets(&mut out)?;
    bad_words_of_odd_alphabets(&mut out)?;
    bad_long_words_of_odd_alphabets(&mut out)?;
    words_with_u(&mut out)?;
    drawn_words_with_u(&mut out)?;
    Ok(())
}
