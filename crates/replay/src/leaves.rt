// Questions on matching and hashes: a kind, one field in hex (two for `m`, the topic and the pattern), and the answer.
use cut::args::unhex;
use cut::upto;
use lines::put;
use topics::{hashes, matching, names, patterns, payload};

// A 32-bit hash as recorded: eight hex digits.
fn put_hash(out: &mut [u8], at: usize, hash: u32) -> usize {
    let mut digits = [0u8; 16];
    let k = io::hex(u64::from(hash), 8, &mut digits);
    put::put_bytes(out, at, &digits[..k])
}

// A client's two hashes as recorded.
fn put_client(out: &mut [u8], client_id: &[u8]) -> usize {
    let both = hashes::client_hashes(client_id);
    let first = put_hash(out, 0, both.hash);
    let blank = put::put_byte(out, first, b' ');
    put_hash(out, blank, both.hash2)
}

// The number that refuses a pattern, 0 for none.
fn refusal_of(pattern: &[u8]) -> u32 {
    match patterns::check_pattern(pattern) {
        Ok(()) => 0,
        Err(refusal) => refusal.number(),
    }
}

// What the port says of some bytes, as recorded, to the beginning of `out`; its length, or 0 for a kind that there is not.
fn put_answer(kind: u8, bytes: &[u8], out: &mut [u8]) -> usize {
    match kind {
        b'f' => put_hash(out, 0, hashes::fnv1a_hash(bytes)),
        b'd' => put_hash(out, 0, hashes::djb2_hash(bytes)),
        b's' => put_hash(out, 0, hashes::suffix_hash(bytes)),
        b'c' => put_client(out, bytes),
        b'p' => put::put_hex(out, 0, &payload::compute_payload_hash(bytes)),
        b'v' => put::put_flag(out, 0, patterns::validate_mqtt_wildcard(bytes)),
        b'r' => put::put_decimal(out, 0, u64::from(refusal_of(bytes))),
        b'b' => put::put_flag(out, 0, names::is_broad_wildcard_subscribe(bytes)),
        b'x' => put::put_flag(out, 0, names::contains_invalid_publish_char(bytes)),
        b'$' => put::put_flag(out, 0, names::starts_with_dollar(bytes)),
        _ => 0,
    }
}

// The same for the fields of a question of one field.
pub fn answer_one(kind: u8, fields: &[u8], out: &mut [u8]) -> usize {
    let mut bytes = [0u8; 512];
    let got = unhex(fields, 0, &mut bytes);
    if !got.good {
        return 0;
    }
    put_answer(kind, upto(&bytes, got.count), out)
}

// The same for the fields of an `m`.
pub fn answer_match(fields: &[u8], out: &mut [u8]) -> usize {
    let mut topic = [0u8; 512];
    let name = unhex(fields, 0, &mut topic);
    if !name.good {
        return 0;
    }
    let mut pattern = [0u8; 512];
    let rule = unhex(fields, 1, &mut pattern);
    if !rule.good {
        return 0;
    }
    let yes = matching::topic_matches(upto(&topic, name.count), upto(&pattern, rule.count));
    put::put_flag(out, 0, yes)
}
