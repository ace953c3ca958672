// Letters packed by two bits, four to a byte: the mirror of a window by a table of bytes (document 02, K3). The kernel by two-bit numbers takes every
// window's mirror from here.

#![tactic(auto)]

ghost use Rattle.std.specs.Prelude.{◌≡◌, ◌*◌, ◌%◌, ◌^◌, ◌<◌, ◌≤◌, get_or};
ghost use Rattle.encoding.specs.Words.{Complement, mirror, plain};
ghost use Rattle.encoding.specs.WordsOfCodes.{word_of_plain};
ghost use Rattle.packed.specs.Mirrors.{MirrorTable};
ghost use Rattle.packed.specs.Needs.{low_mirror};

// The table, to be copied once a call and lent: a constant that is indexed in a loop is copied in every turn.
pub fn mirror_table() -> [u8; 256]
    ensures { MirrorTable result }
{
    MIRRORS
}

// Stays: the table's rule is asked in three contracts. A struct around this one array would be no plainer: who lends it on, `TwoBit`, has it among other fields with
// the rule as its own.

// The table's entry for the lowest byte of x, which is the plain rank of the mirror of the four lowest letters.
fn mirror_of_four(x: u64, mirrors: &[u8; 256]) -> u64
    requires { MirrorTable mirrors.now }
    ensures { result ≡ get_or mirrors.now (x % 256) 0 }
{
    let byte = (x % 256) as usize;
    mirrors[byte] as u64
}

// The plain rank of the mirror of the lowest letters of x, of which there are four to a byte: the mirror of the last four, then that of the four before them, and
// so on. That is a constant number of lookups, so that the compiler writes them out one after the other.
fn mirror_of_bytes<const BYTES: usize>(x: u64, mirrors: &[u8; 256]) -> u64
    requires mirror_table { MirrorTable mirrors.now }
    requires bytes_bound { BYTES ≤ 8 }
    ensures { result ≡ low_mirror (4 * BYTES) x }
{
    let mut mirror: u64 = 0;
    let mut rest = x;
    for _ in 0..BYTES {
        let before = mirror_of_four(rest, mirrors);
        mirror = mirror * 256 + before;
        rest /= 256;
    }
    mirror
}

// The plain rank of the mirror of the word of k letters with the plain rank x. It is looked up with letters of rank 0 before the word; in the mirror
// their complements stand behind it, and the shift drops these.
pub fn window_mirror(x: u64, k: u64, mirrors: &[u8; 256]) -> u64
    requires mirror_table { MirrorTable mirrors.now }
    requires k_bound { k ≤ 31 }
    requires x_bound { x < 4 ^ k }
    ensures { result ≡ plain 4 (mirror 4 Complement (word_of_plain 4 k x)) }
{
    if 16 < k {
        return mirror_of_bytes::<8>(x, mirrors) >> (64 - 2 * k);
    }
    if 12 < k {
        return mirror_of_bytes::<4>(x, mirrors) >> (32 - 2 * k);
    }
    if 8 < k {
        return mirror_of_bytes::<3>(x, mirrors) >> (24 - 2 * k);
    }
    if 4 < k {
        return mirror_of_bytes::<2>(x, mirrors) >> (16 - 2 * k);
    }
    mirror_of_four(x, mirrors) >> (8 - 2 * k)
}

// At each byte of four packed letters, first letter highest, the byte of its reverse complement. Two bits are a letter's rank; the letters of the place
// stand beside the entry, for ACGT.
const MIRRORS: [u8; 256] = [
    0b11_11_11_11, // AAAA
    0b10_11_11_11, // AAAC
    0b01_11_11_11, // AAAG
    0b00_11_11_11, // AAAT
    0b11_10_11_11, // AACA
    0b10_10_11_11, // AACC
    0b01_10_11_11, // AACG
    0b00_10_11_11, // AACT
    0b11_01_11_11, // AAGA
    0b10_01_11_11, // AAGC
    0b01_01_11_11, // AAGG
    0b00_01_11_11, // AAGT
    0b11_00_11_11, // AATA
    0b10_00_11_11, // AATC
    0b01_00_11_11, // AATG
    0b00_00_11_11, // AATT
    0b11_11_10_11, // ACAA
    0b10_11_10_11, // ACAC
    0b01_11_10_11, // ACAG
    0b00_11_10_11, // ACAT
    0b11_10_10_11, // ACCA
    0b10_10_10_11, // ACCC
    0b01_10_10_11, // ACCG
    0b00_10_10_11, // ACCT
    0b11_01_10_11, // ACGA
    0b10_01_10_11, // ACGC
    0b01_01_10_11, // ACGG
    0b00_01_10_11, // ACGT
    0b11_00_10_11, // ACTA
    0b10_00_10_11, // ACTC
    0b01_00_10_11, // ACTG
    0b00_00_10_11, // ACTT
    0b11_11_01_11, // AGAA
    0b10_11_01_11, // AGAC
    0b01_11_01_11, // AGAG
    0b00_11_01_11, // AGAT
    0b11_10_01_11, // AGCA
    0b10_10_01_11, // AGCC
    0b01_10_01_11, // AGCG
    0b00_10_01_11, // AGCT
    0b11_01_01_11, // AGGA
    0b10_01_01_11, // AGGC
    0b01_01_01_11, // AGGG
    0b00_01_01_11, // AGGT
    0b11_00_01_11, // AGTA
    0b10_00_01_11, // AGTC
    0b01_00_01_11, // AGTG
    0b00_00_01_11, // AGTT
    0b11_11_00_11, // ATAA
    0b10_11_00_11, // ATAC
    0b01_11_00_11, // ATAG
    0b00_11_00_11, // ATAT
    0b11_10_00_11, // ATCA
    0b10_10_00_11, // ATCC
    0b01_10_00_11, // ATCG
    0b00_10_00_11, // ATCT
    0b11_01_00_11, // ATGA
    0b10_01_00_11, // ATGC
    0b01_01_00_11, // ATGG
    0b00_01_00_11, // ATGT
    0b11_00_00_11, // ATTA
    0b10_00_00_11, // ATTC
    0b01_00_00_11, // ATTG
    0b00_00_00_11, // ATTT
    0b11_11_11_10, // CAAA
    0b10_11_11_10, // CAAC
    0b01_11_11_10, // CAAG
    0b00_11_11_10, // CAAT
    0b11_10_11_10, // CACA
    0b10_10_11_10, // CACC
    0b01_10_11_10, // CACG
    0b00_10_11_10, // CACT
    0b11_01_11_10, // CAGA
    0b10_01_11_10, // CAGC
    0b01_01_11_10, // CAGG
    0b00_01_11_10, // CAGT
    0b11_00_11_10, // CATA
    0b10_00_11_10, // CATC
    0b01_00_11_10, // CATG
    0b00_00_11_10, // CATT
    0b11_11_10_10, // CCAA
    0b10_11_10_10, // CCAC
    0b01_11_10_10, // CCAG
    0b00_11_10_10, // CCAT
    0b11_10_10_10, // CCCA
    0b10_10_10_10, // CCCC
    0b01_10_10_10, // CCCG
    0b00_10_10_10, // CCCT
    0b11_01_10_10, // CCGA
    0b10_01_10_10, // CCGC
    0b01_01_10_10, // CCGG
    0b00_01_10_10, // CCGT
    0b11_00_10_10, // CCTA
    0b10_00_10_10, // CCTC
    0b01_00_10_10, // CCTG
    0b00_00_10_10, // CCTT
    0b11_11_01_10, // CGAA
    0b10_11_01_10, // CGAC
    0b01_11_01_10, // CGAG
    0b00_11_01_10, // CGAT
    0b11_10_01_10, // CGCA
    0b10_10_01_10, // CGCC
    0b01_10_01_10, // CGCG
    0b00_10_01_10, // CGCT
    0b11_01_01_10, // CGGA
    0b10_01_01_10, // CGGC
    0b01_01_01_10, // CGGG
    0b00_01_01_10, // CGGT
    0b11_00_01_10, // CGTA
    0b10_00_01_10, // CGTC
    0b01_00_01_10, // CGTG
    0b00_00_01_10, // CGTT
    0b11_11_00_10, // CTAA
    0b10_11_00_10, // CTAC
    0b01_11_00_10, // CTAG
    0b00_11_00_10, // CTAT
    0b11_10_00_10, // CTCA
    0b10_10_00_10, // CTCC
    0b01_10_00_10, // CTCG
    0b00_10_00_10, // CTCT
    0b11_01_00_10, // CTGA
    0b10_01_00_10, // CTGC
    0b01_01_00_10, // CTGG
    0b00_01_00_10, // CTGT
    0b11_00_00_10, // CTTA
    0b10_00_00_10, // CTTC
    0b01_00_00_10, // CTTG
    0b00_00_00_10, // CTTT
    0b11_11_11_01, // GAAA
    0b10_11_11_01, // GAAC
    0b01_11_11_01, // GAAG
    0b00_11_11_01, // GAAT
    0b11_10_11_01, // GACA
    0b10_10_11_01, // GACC
    0b01_10_11_01, // GACG
    0b00_10_11_01, // GACT
    0b11_01_11_01, // GAGA
    0b10_01_11_01, // GAGC
    0b01_01_11_01, // GAGG
    0b00_01_11_01, // GAGT
    0b11_00_11_01, // GATA
    0b10_00_11_01, // GATC
    0b01_00_11_01, // GATG
    0b00_00_11_01, // GATT
    0b11_11_10_01, // GCAA
    0b10_11_10_01, // GCAC
    0b01_11_10_01, // GCAG
    0b00_11_10_01, // GCAT
    0b11_10_10_01, // GCCA
    0b10_10_10_01, // GCCC
    0b01_10_10_01, // GCCG
    0b00_10_10_01, // GCCT
    0b11_01_10_01, // GCGA
    0b10_01_10_01, // GCGC
    0b01_01_10_01, // GCGG
    0b00_01_10_01, // GCGT
    0b11_00_10_01, // GCTA
    0b10_00_10_01, // GCTC
    0b01_00_10_01, // GCTG
    0b00_00_10_01, // GCTT
    0b11_11_01_01, // GGAA
    0b10_11_01_01, // GGAC
    0b01_11_01_01, // GGAG
    0b00_11_01_01, // GGAT
    0b11_10_01_01, // GGCA
    0b10_10_01_01, // GGCC
    0b01_10_01_01, // GGCG
    0b00_10_01_01, // GGCT
    0b11_01_01_01, // GGGA
    0b10_01_01_01, // GGGC
    0b01_01_01_01, // GGGG
    0b00_01_01_01, // GGGT
    0b11_00_01_01, // GGTA
    0b10_00_01_01, // GGTC
    0b01_00_01_01, // GGTG
    0b00_00_01_01, // GGTT
    0b11_11_00_01, // GTAA
    0b10_11_00_01, // GTAC
    0b01_11_00_01, // GTAG
    0b00_11_00_01, // GTAT
    0b11_10_00_01, // GTCA
    0b10_10_00_01, // GTCC
    0b01_10_00_01, // GTCG
    0b00_10_00_01, // GTCT
    0b11_01_00_01, // GTGA
    0b10_01_00_01, // GTGC
    0b01_01_00_01, // GTGG
    0b00_01_00_01, // GTGT
    0b11_00_00_01, // GTTA
    0b10_00_00_01, // GTTC
    0b01_00_00_01, // GTTG
    0b00_00_00_01, // GTTT
    0b11_11_11_00, // TAAA
    0b10_11_11_00, // TAAC
    0b01_11_11_00, // TAAG
    0b00_11_11_00, // TAAT
    0b11_10_11_00, // TACA
    0b10_10_11_00, // TACC
    0b01_10_11_00, // TACG
    0b00_10_11_00, // TACT
    0b11_01_11_00, // TAGA
    0b10_01_11_00, // TAGC
    0b01_01_11_00, // TAGG
    0b00_01_11_00, // TAGT
    0b11_00_11_00, // TATA
    0b10_00_11_00, // TATC
    0b01_00_11_00, // TATG
    0b00_00_11_00, // TATT
    0b11_11_10_00, // TCAA
    0b10_11_10_00, // TCAC
    0b01_11_10_00, // TCAG
    0b00_11_10_00, // TCAT
    0b11_10_10_00, // TCCA
    0b10_10_10_00, // TCCC
    0b01_10_10_00, // TCCG
    0b00_10_10_00, // TCCT
    0b11_01_10_00, // TCGA
    0b10_01_10_00, // TCGC
    0b01_01_10_00, // TCGG
    0b00_01_10_00, // TCGT
    0b11_00_10_00, // TCTA
    0b10_00_10_00, // TCTC
    0b01_00_10_00, // TCTG
    0b00_00_10_00, // TCTT
    0b11_11_01_00, // TGAA
    0b10_11_01_00, // TGAC
    0b01_11_01_00, // TGAG
    0b00_11_01_00, // TGAT
    0b11_10_01_00, // TGCA
    0b10_10_01_00, // TGCC
    0b01_10_01_00, // TGCG
    0b00_10_01_00, // TGCT
    0b11_01_01_00, // TGGA
    0b10_01_01_00, // TGGC
    0b01_01_01_00, // TGGG
    0b00_01_01_00, // TGGT
    0b11_00_01_00, // TGTA
    0b10_00_01_00, // TGTC
    0b01_00_01_00, // TGTG
    0b00_00_01_00, // TGTT
    0b11_11_00_00, // TTAA
    0b10_11_00_00, // TTAC
    0b01_11_00_00, // TTAG
    0b00_11_00_00, // TTAT
    0b11_10_00_00, // TTCA
    0b10_10_00_00, // TTCC
    0b01_10_00_00, // TTCG
    0b00_10_00_00, // TTCT
    0b11_01_00_00, // TTGA
    0b10_01_00_00, // TTGC
    0b01_01_00_00, // TTGG
    0b00_01_00_00, // TTGT
    0b11_00_00_00, // TTTA
    0b10_00_00_00, // TTTC
    0b01_00_00_00, // TTTG
    0b00_00_00_00, // TTTT
];
