// Lone links: those alone in their label.
ghost use Rattle.std.specs.Prelude.{◌≡◌};
ghost use Rattle.spec_rules.specs.Labels.{lone};
ghost use Rattle.report_flags.specs.Flags.{flag_table};
ghost use Rattle.report_flags.specs.Sharing.{sharing, counted, lookup, Shared};

use table::ABSENT;

// How many links have the label `x`.
fn sharing(links: u16, label: &[u16], x: u16) -> u16
    ensures { result ≡ sharing links label.now x }
{
    let mut n = 0;
    for k in 0..links {
        n += u16::from(base_slices::word(label, k as usize) == x);
    }
    n
}

// Whether link `j` is alone in its label.
pub fn lone(links: u16, label: &[u16], j: u16) -> bool
    ensures { result ≡ lone links label.now j }
{
    sharing(links, label, base_slices::word(label, j as usize)) == 1
}

// One more in bucket `q`.
fn count_in(bucket: &mut [u16], q: u16)
    ensures { bucket.new ≡ counted bucket.old q }
{
    let more = base_slices::word(bucket, q as usize).wrapping_add(1);
    base_slices::put(bucket, q as usize, more);
}

// For each label below 1,024 how many links have it, and how many have the absent label: one pass over the links.
fn count_labels(links: u16, label: &[u16], bucket: &mut [u16]) -> u16
    requires { Shared 0 label.now bucket.old }
    ensures buckets { Shared links label.now bucket.new }
    ensures absent { result ≡ sharing links label.now 65535 }
{
    let mut absent = 0;
    for k in 0..links {
        let q = base_slices::word(label, k as usize);
        if q < 1024 {
            count_in(bucket, q);
        } else {
            absent += u16::from(q == ABSENT);
        }
    }
    absent
}

// The count of the label `x` from the buckets, and from `absent` for the absent label; a label that no state holds is
// counted.
fn look_up(links: u16, label: &[u16], bucket: &[u16], absent: u16, x: u16) -> u16
    ensures { result ≡ lookup links label.now bucket.now absent x }
{
    if x < 1024 {
        base_slices::word(bucket, x as usize)
    } else if x == ABSENT {
        absent
    } else {
        sharing(links, label, x)
    }
}

// The flags of all lone links.
pub fn lones(links: u16, label: &[u16]) -> [u8; 1024]
    ensures { result ≡ flag_table 1024 links (lone links label.now) }
{
    let mut bucket = [0u16; 1024];
    let absent = count_labels(links, label, &mut bucket);
    let mut table = [0u8; 1024];
    for j in 0..links {
        let x = base_slices::word(label, j as usize);
        let alone = u8::from(look_up(links, label, &bucket, absent, x) == 1);
        base_slices::put_byte(&mut table, j as usize, alone);
    }
    table
}
