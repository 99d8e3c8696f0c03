//! Whether the bytes of a feed are UTF-8, decided while they pass.
ghost use Rattle.std.specs.Prelude.{◌≡◌, ◌↔◌, ℕ, List, IsUtf8, IsTrue};
ghost use Rattle.aide_json.specs.code.Follows.{is_closed, may_follow};
ghost use Rattle.aide_json.specs.code.Follows.{is_continuation, least_after, most_after};

use aide_text::Feed;

fn is_continuation(c: u8) -> bool
    ensures { result ≡ is_continuation c }
{
    0x80 <= c && c < 0xc0
}

/// Returns the least byte that may follow a first byte: the shortest form is the only one.
fn least_after(c: u8) -> u8
    ensures { result ≡ least_after c }
{
    match c {
        0xe0 => 0xa0,
        0xf0 => 0x90,
        _ => 0x80,
    }
}

/// Returns the greatest byte that may follow a first byte: no surrogate, and nothing above U+10FFFF.
fn most_after(c: u8) -> u8
    ensures { result ≡ most_after c }
{
    match c {
        0xed => 0x9f,
        0xf4 => 0x8f,
        _ => 0xbf,
    }
}

/// Returns whether a byte may follow three others.
fn may_follow(x: u8, y: u8, z: u8, c: u8) -> bool
    ensures { result ≡ may_follow x y z c }
{
    if 0xf0 <= x || 0xe0 <= y {
        is_continuation(z) && is_continuation(c)
    } else if 0xc0 <= z {
        0xc2 <= z && z <= 0xf4 && least_after(z) <= c && c <= most_after(z)
    } else {
        c < 0x80 || 0xc0 <= c
    }
}

/// Returns whether no character is left open after three bytes.
fn is_closed(x: u8, y: u8, z: u8) -> bool
    ensures { result ≡ is_closed x y z }
{
    x < 0xf0 && y < 0xe0 && z < 0xc0
}

/// Returns whether the bytes of a feed are UTF-8 (RFC 3629). Three bytes of it are kept at a time.
pub fn is_utf8<B: Feed>(mut text: B) -> bool
    ensures { IsTrue result ↔ IsUtf8 (B.rest text) }
{
    let mut x = 0;
    let mut y = 0;
    let mut z = 0;
    'bytes: loop {
        match text.next_byte() {
            None => return is_closed(x, y, z),
            Some(c) => {
                if !may_follow(x, y, z, c) {
                    return false;
                }
                x = y;
                y = z;
                z = c;
            }
        }
    }
}
