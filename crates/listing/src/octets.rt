// An octet in decimal. A rule of the project: its digits are read from a table of three-digit entries.
ghost use Rattle.std.specs.Prelude.{◌≡◌, ◌+◌, length};
ghost use Rattle.buffers.specs.Outputs.{Puts};
ghost use Rattle.listing.specs.Octets.{octet_text, spelled_octets};

use buffers::Output;

// The octets in order, three digits each.
const DIGITS: [u8; 768] = *b"\
    000001002003004005006007008009010011012013014015016017018019\
    020021022023024025026027028029030031032033034035036037038039\
    040041042043044045046047048049050051052053054055056057058059\
    060061062063064065066067068069070071072073074075076077078079\
    080081082083084085086087088089090091092093094095096097098099\
    100101102103104105106107108109110111112113114115116117118119\
    120121122123124125126127128129130131132133134135136137138139\
    140141142143144145146147148149150151152153154155156157158159\
    160161162163164165166167168169170171172173174175176177178179\
    180181182183184185186187188189190191192193194195196197198199\
    200201202203204205206207208209210211212213214215216217218219\
    220221222223224225226227228229230231232233234235236237238239\
    240241242243244245246247248249250251252253254255";

// The rule of the table, tested over all 256 entries at once.
fn spelled_octets() -> &'static [u8]
    ensures { result.now ≡ spelled_octets }
{
    &DIGITS
}

fn leading_zeros(octet: u8) -> usize
    ensures { result + length (octet_text octet) ≡ 3 }
{
    match octet {
        0..=9 => 2,
        10..=99 => 1,
        _ => 0,
    }
}

pub(crate) fn put_octet(out: &mut Output, octet: u8)
    ensures { Puts out.old (octet_text octet) out.new }
{
    let entry = 3 * octet as usize;
    let first = entry + leading_zeros(octet);
    out.put_bytes(&spelled_octets()[first..entry + 3]);
}
