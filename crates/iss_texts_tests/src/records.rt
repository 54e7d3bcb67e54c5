//! Lines of all types with the bytes of their records, and bytes that are no records.
use iss_codec::{decode, decode_in, encode, encode_in, tokens_of};
use iss_event::{FormFault, LineFault, Mode, read_line};
use iss_model::Record;
use std::alloc::{AllocError, Global};
use std::test::Fail;

/// The stamp of a record whose line has none.
const LATER: u64 = 9;

/// Lines, and the bytes of their records in base 16, from outside of this program.
const RECORDS: &str =
    r#"{"type":"user","at":0,"token":"t1","user":"u1"} 010000000000000000027431027531
{"type":"card","at":1,"token":"t2","card":"c1","user":"u1","active":null} 0200000000000000010274320263310275310764656661756c7401
{"type":"move","at":2,"token":"m1","card":"c1","user":null,"to":"TERMINATED"} 030000000000000002026d310102633104
{"type":"move","at":2,"token":"m2","user":"u1","to":"CLOSED"} 030000000000000002026d320202753105
{"type":"product","at":3,"token":"t3","product":"gold","currency":"JPY","funding":"GATEWAY"} 04000000000000000302743304676f6c6401880200000bb8240c8400
{"type":"group","at":4,"token":"t4","group":"food","mccs":["9999","0742","5411","9999"]} 05000000000000000402743404666f6f64000302e61523270f
{"type":"control","at":5,"token":"t5","control":"v1","currency":"EUR","window":"MONTH","amount_limit":"10000000000.00","product":"gold","mid":"m-9_Z","active":false} 06000000000000000502743502763103d20401000000e8d4a51000000204676f6c6403056d2d395f5a00
{"type":"control","at":5,"token":"t6","control":"v2","currency":"KWD","window":"TRANSACTION","amount_limit":"0.500","group":"food"} 060000000000000005027436027632019e010100000000000001f400000204666f6f6401
{"type":"control","at":5,"token":"t7","control":"v3","currency":"GBP","window":"DAY","usage_limit":3,"user":"u1","mcc":"5411"} 060000000000000005027437027633033a020001000000030102753101152301
{"type":"set","at":6,"token":"t8","set":"s1","product":"gold","currency":"CAD","connection":true,"application":true,"max":"25.00","day_limit":1000} 07000000000000000602743802733104676f6c64007c01000100000000000009c400000000000186a001
{"type":"switch","at":7,"token":"t9","product":"gold","on":false} 08000000000000000702743904676f6c6400
{"type":"load","at":8,"token":"l1","user":"u1","currency":"AUD","amount":50} 090000000000000008026c3102753100240000000000001388
{"type":"authorization","at":1000,"token":"a1","card":"c1","currency":"USD","amount":"60.00","mcc":"5411","mid":"m1"} 0a00000000000003e8026131026331034800000000000017701523026d31
{"type":"authorization","at":1000,"token":"a1","card":"c1","currency":"USD","amount":"60.00","mcc":"5411","mid":"m1","partial":true} 1400000000000003e8026131026331034800000000000017701523026d31
{"type":"authorization","at":1000,"token":"a1","card":"c1","currency":"USD","amount":"60.00","mcc":"5411","mid":"m1","partial":false} 0a00000000000003e8026131026331034800000000000017701523026d31
{"type":"authorization","partial":null,"at":1000,"token":"a1","card":"c1","currency":"USD","amount":"60.00","mcc":"5411","mid":"m1"} 0a00000000000003e8026131026331034800000000000017701523026d31
{"type":"increment","at":1001,"token":"i1","txn":"a1","currency":"USD","amount":"0.01"} 0b00000000000003e902693102613103480000000000000001
{"type":"reversal","at":1002,"token":"r1","txn":"a1","currency":"USD","amount":"10000000.00"} 0c00000000000003ea0272310261310348000000003b9aca00
{"type":"clearing","at":1003,"token":"k1","txn":"a1","currency":"USD","amount":"38.20","final":true} 0d00000000000003eb026b3102613103480000000000000eec01
{"type":"refund","at":1004,"token":"f1","txn":"a1","currency":"USD","amount":"2.58"} 0e00000000000003ec02663102613103480000000000000102
{"type":"answer","at":1005,"call":66051,"outcome":"APPLICATION"} 0f00000000000003ed0001020304
{"type":"answer","at":1005,"call":66051,"outcome":"PARTIAL","currency":"USD","amount":"40.00"} 1300000000000003ed0001020303480000000000000fa0
{"type":"answer","at":1005,"amount":10,"currency":"KWD","call":4294967295,"outcome":"PARTIAL"} 1300000000000003edffffffff019e0000000000002710
{"type":"answer","at":1005,"call":1,"outcome":"FUNDED","currency":[],"amount":"x"} 0f00000000000003ed0000000101
{"type":"ack","at":1006,"notice":4294967295} 1000000000000003eeffffffff
{"type":"time","at":253370764799999} 110000e6707a6eafff
{"type":"user","token":"t1","user":"u1"} 010000000000000009027431027531
{"type":"product","token":"p","product":"x","currency":"USD","funding":"ACCOUNT"} 0400000000000000090170017803480100000bb8240c8400
{"type":"product","token":"p","product":"x","currency":"USD","funding":"ACCOUNT","timeout_ms":1,"hold_ms":2678400000} 04000000000000000901700178034801000000019fa52400
{"type":"group","token":"t4","group":"food","mccs":["5812","0742","5411","5812"]} 05000000000000000902743404666f6f64000302e6152316b4
{"type":"control","token":"t4","control":"v1","currency":"USD","window":"DAY","amount_limit":"100.00"} 06000000000000000902743402763103480201000000000000271000000001
{"type":"control","token":"t4","control":"v1","currency":"USD","window":"TRANSACTION","amount_limit":0,"user":"u1","product":null,"mcc":"0411"} 060000000000000009027434027631034801010000000000000000000102753101019b01
{"type":"control","token":"t4","control":"v1","currency":"USD","window":"LIFETIME","amount_limit":"10000000000.00","usage_limit":1000000,"product":"g","group":"food","active":false} 06000000000000000902743402763103480501000000e8d4a5100001000f42400201670204666f6f6400
{"type":"control","token":"t4","control":"v1","currency":"USD","window":"WEEK","usage_limit":0,"mid":"m1"} 0600000000000000090274340276310348030001000000000003026d3101
{"type":"control","token":"t4","control":"v1","currency":"USD","window":"DAY","amount_limit":"100.00","utc_offset":"+00:00"} 06000000000000000902743402763103480201000000000000271000000001
{"type":"control","token":"t4","control":"v1","currency":"USD","window":"DAY","amount_limit":"100.00","utc_offset":"+05:30"} 12000000000000000902743402763103480201000000000000271000000001014a
{"type":"control","token":"t4","control":"v1","currency":"USD","window":"DAY","amount_limit":"100.00","utc_offset":"+14:00","active":false} 120000000000000009027434027631034802010000000000002710000000000348
{"type":"control","token":"t4","control":"v1","currency":"USD","window":"DAY","amount_limit":"100.00","utc_offset":"-00:01"} 12000000000000000902743402763103480201000000000000271000000001ffff
{"type":"control","token":"t4","control":"v1","currency":"USD","window":"DAY","amount_limit":"100.00","utc_offset":"-12:00"} 12000000000000000902743402763103480201000000000000271000000001fd30
{"type":"set","token":"t5","set":"s1","product":"g","currency":"USD","connection":true,"max":"100.00","day_limit":"100.00"} 070000000000000009027435027331016703480100000000000000002710000000000000271001
{"type":"set","token":"t5","set":"s1","product":"g","currency":"JPY","max":0,"day_limit":"1000000000000","active":false} 070000000000000009027435027331016701880000000000000000000000000000e8d4a5100000
{"type":"switch","token":"t6","product":"g","on":true} 080000000000000009027436016701
{"type":"load","token":"l1","user":"u1","currency":"JPY","amount":"1500"} 090000000000000009026c31027531018800000000000005dc
{"type":"load","token":"l1","user":"u1","currency":"KWD","amount":"1.234"} 090000000000000009026c31027531019e00000000000004d2
{"type":"load","token":"l1","user":"u1","currency":"USD","amount":10} 090000000000000009026c31027531034800000000000003e8
{"type":"load","token":"l1","user":"u1","currency":"KWD","amount":10} 090000000000000009026c31027531019e0000000000002710
{"type":"authorization","token":"a1","card":"c1","currency":"KWD","amount":"50.001","mcc":"0411","mid":"m1"} 0a0000000000000009026131026331019e000000000000c351019b026d31
{"type":"increment","token":"o1","txn":"a1","currency":"USD","amount":"10.00"} 0b0000000000000009026f31026131034800000000000003e8
{"type":"reversal","token":"o1","txn":"a1","currency":"USD","amount":10} 0c0000000000000009026f31026131034800000000000003e8
{"type":"clearing","token":"o1","txn":"a1","currency":"USD","amount":"10.00"} 0d0000000000000009026f31026131034800000000000003e800
{"type":"clearing","token":"o1","txn":"a1","currency":"USD","amount":"10.00","final":true} 0d0000000000000009026f31026131034800000000000003e801
{"type":"refund","token":"o1","txn":"a1","currency":"USD","amount":"10.00"} 0e0000000000000009026f31026131034800000000000003e8
{"type":"answer","call":1,"outcome":"APPLICATION"} 0f00000000000000090000000104
{"type":"answer","call":4294967295,"outcome":"CONNECTION","amount":"1.00"} 0f0000000000000009ffffffff03
{"type":"ack","notice":4294967295} 100000000000000009ffffffff
{"type":"time","at":0} 110000000000000000"#;

#[test]
fn lines_and_the_bytes_of_their_records(rt: HostRuntime) -> Result<(), Fail> {
    for row in RECORDS.split('\n') {
        let (text, bytes) = row.split_once(' ').ok_or("no bytes")?;
        let line = read_line(rt.alloc(), text.as_bytes(), Mode::Lines)?;
        let record = Record {
            at: line.at.unwrap_or(LATER),
            input: line.input,
        };
        let spelled = encode(rt.alloc(), &record)?;
        let spelled = hex::encode(rt.alloc(), spelled.as_slice())?;
        assert!(rt; spelled.as_str() == bytes, "{text}");
    }
    Ok(())
}

/// Whether the record that these bytes spell is read again from its spelling with places in the table of its tokens. A byte
/// after that spelling is left.
fn is_read_by_places(alloc: Global, bytes: &[u8]) -> Result<bool, AllocError> {
    let Some(record) = decode(alloc, bytes)? else {
        return Ok(false);
    };
    let tokens = tokens_of(alloc, &record)?;
    let mut placed = encode_in(alloc, &record, &tokens)?;
    let length = placed.len();
    placed.push(0)?;
    match decode_in(alloc, &placed, &tokens)? {
        Some((again, taken)) => {
            Ok(taken == length && encode(alloc, &again)?.as_slice() == bytes)
        }
        None => Ok(false),
    }
}

#[test]
fn records_with_their_tokens_as_places(rt: HostRuntime) -> Result<(), Fail> {
    for row in RECORDS.split('\n') {
        let (text, bytes) = row.split_once(' ').ok_or("no bytes")?;
        let bytes = hex::decode(rt.alloc(), bytes.as_bytes())?;
        assert!(rt; is_read_by_places(rt.alloc(), &bytes)?, "{text}");
    }
    Ok(())
}

/// Lines that a bad field makes bad, and the field.
const FAULTS: &str =
    r#"{"type":"authorization","token":"a1","card":"c1","currency":"USD","amount":"60.00","mcc":"5411","mid":"m1","partial":1} partial
{"type":"authorization","token":"a1","card":"c1","currency":"USD","amount":"60.00","mcc":"5411","mid":"m1","partial":"true"} partial
{"type":"answer","call":1,"outcome":"PARTIAL"} currency
{"type":"answer","call":1,"outcome":"PARTIAL","currency":null,"amount":"1.00"} currency
{"type":"answer","call":1,"outcome":"PARTIAL","currency":"USD"} amount
{"type":"answer","call":1,"outcome":"PARTIAL","currency":"USD","amount":"0.00"} amount
{"type":"answer","call":1,"outcome":"PARTIAL","currency":"JPY","amount":"1.00"} amount
{"type":"answer","call":1,"outcome":"partial","currency":"USD","amount":"1.00"} outcome"#;

#[test]
fn lines_and_their_bad_fields(rt: HostRuntime) -> Result<(), Fail> {
    for row in FAULTS.split('\n') {
        let (text, field) = row.split_once(' ').ok_or("no field")?;
        let name = match read_line(rt.alloc(), text.as_bytes(), Mode::Lines) {
            Err(LineFault::Form(FormFault::Field(name))) => name.text(),
            _ => "",
        };
        assert!(rt; name == field, "{text}");
    }
    Ok(())
}

/// Bytes that are no records, in base 16, and why.
const OTHERS: &str = r#"000000000000000000027431027531 no kind 0
120000000000000000027431027531 a control that ends early
12000000000000000902743402763103480201000000000000271000000001 a control of kind 18 without an offset
120000000000000009027434027631034802010000000000002710000000010000 an offset of 0
120000000000000009027434027631034802010000000000002710000000010349 an offset of 14 hours and a minute
12000000000000000902743402763103480201000000000000271000000001fd2f an offset of 12 hours and a minute behind UTC
06000000000000000902743402763103480201000000000000271000000001014a a control in UTC with an offset
1300000000000003ed00010203034800000000000fa0 a part that ends early
1300000000000003ed0001020303480000000000000000 a part of nothing
1300000000000003ed000102030348000000003b9aca01 a part that is too much
1300000000000003ed0001020302f40000000000000fa0 a part in an unknown currency
1300000000000003ed0000000003480000000000000fa0 a part of a call 0
1300000000000003ed000102030503480000000000000fa0 a part after its outcome's number
1400000000000003e8026131026331034800000000000017701523026d3101 a flag after an authorisation that permits a part
0a00000000000003e8026131026331034800000000000017701523026d3101 a flag after an authorisation that permits none
150000000000000000027431027531 no kind 21
110000e6707a6eb000 a stamp past the last
01000000000000000000027531 an empty token
0100000000000000002578787878787878787878787878787878787878787878787878787878787878787878787878027531 a token of 37 bytes
01000000000000000003742031027531 a blank in a token
090000000000000000026c3102753102f40000000000000001 an unknown currency
090000000000000000026c3102753103480000000000000000 no amount
090000000000000000026c310275310348000000003b9aca01 too much
08000000000000000702743904676f6c6402 a flag of 2
05000000000000000402743404666f6f64000216b41523 codes that fall
05000000000000000402743404666f6f64000215231523 a code twice
05000000000000000402743404666f6f640000 no codes
05000000000000000402743404666f6f6400012710 a code of five digits
060000000000000005027436027632019e020000000001 no limit
060000000000000005027436027632019e01000100000003000001 a count of single transactions
030000000000000002026d320202753101 a card's state for a user
030000000000000002026d310102633105 a user's state for a card
060000000000000005027436027632019e0201000000000000000500030275310001 a third kind of association
04000000000000000302743304676f6c6401880200000000240c8400 a timeout of 0
0f00000000000003ed0000000001 a call 0
0f00000000000003ed0000000105 a fifth outcome
 nothing"#;

#[test]
fn other_bytes_are_no_records(rt: HostRuntime) -> Result<(), Fail> {
    for row in OTHERS.split('\n') {
        let (text, why) = row.split_once(' ').ok_or("no reason")?;
        let bytes = hex::decode(rt.alloc(), text.as_bytes())?;
        assert!(rt; decode(rt.alloc(), &bytes)?.is_none(), "{why}");
    }
    Ok(())
}
