//! Lines that runs take, and what they are told.

/// A user is made.
pub(crate) const USER: &str = r#"{"type":"user","token":"t1","user":"u1"}
"#;

pub(crate) const USER_DONE: &str = "{\"event\":\"t1\",\"reply\":\"done\"}\n";

pub(crate) const TWO_USERS: &str = r#"{"type":"user","token":"t1","user":"u1"}
{"type":"user","token":"t2","user":"u2"}
"#;

pub(crate) const TWO_USERS_DONE: &str = r#"{"event":"t1","reply":"done"}
{"event":"t2","reply":"done"}
"#;

/// A user's line, and a part of a second one.
pub(crate) const ONE_USER_AND_A_HALF: &str =
    "{\"type\":\"user\",\"token\":\"t1\",\"user\":\"u1\"}\n{\"type\":\"us";

pub(crate) const ONE_USER_AND_A_FAULT: &str = r#"{"event":"t1","reply":"done"}
{"fault":"JSON","reply":"form"}
"#;

/// Users, of whom two don't fit a device of 75 bytes.
pub(crate) const FIVE_USERS: &str = r#"{"type":"user","token":"t1","user":"u1"}
{"type":"user","token":"t2","user":"u2"}
{"type":"user","token":"t3","user":"u3"}
{"type":"user","token":"x","user":"y"}
{"type":"user","token":"t3","user":"u3"}
{"type":"user","token":"t1","user":"u1"}
"#;

pub(crate) const FIVE_USERS_TOLD: &str = r#"{"event":"t1","reply":"done"}
{"event":"t2","reply":"done"}
{"free":18,"need":20,"reply":"full"}
{"event":"x","reply":"done"}
{"free":0,"need":20,"reply":"full"}
{"event":"t1","reply":"done"}
"#;

/// A user's line again, and a time that isn't after the last one.
pub(crate) const USER_AND_A_TIME: &str = r#"{"type":"user","token":"t1","user":"u1"}
{"type":"time","at":0}"#;

pub(crate) const USER_AND_IDLE: &str = r#"{"event":"t1","reply":"done"}
{"reply":"idle"}
"#;

/// A purchase that asks the gateway.
pub(crate) const ASKED: &str =
    r#"{"type":"product","token":"p1","product":"g","currency":"USD","funding":"GATEWAY"}
{"type":"user","token":"t1","user":"u1"}
{"type":"card","token":"t2","card":"c1","user":"u1","product":"g"}
{"type":"authorization","token":"a1","card":"c1","currency":"USD","amount":"60.00","mcc":"5411","mid":"m1","at":1000}
"#;

/// What it asks as instance 0, and as instance 7.
pub(crate) const REQUEST: &str =
    r#"{"amount":"60.00","card":"c1","currency":"USD","event":"a1","mcc":"5411","method":"pgfs.authorization","mid":"m1","number":1,"token":"00000000-0000-8000-8000-000000000001","txn":"a1","user":"u1"}
"#;

pub(crate) const REQUEST_OF_7: &str =
    r#"{"amount":"60.00","card":"c1","currency":"USD","event":"a1","mcc":"5411","method":"pgfs.authorization","mid":"m1","number":1,"token":"00000000-0007-8000-8000-000000000001","txn":"a1","user":"u1"}
"#;

pub(crate) const FUNDED: &str = r#"{"type":"answer","call":1,"outcome":"FUNDED"}
"#;

/// A purchase that asks the gateway, and the gateway's answer.
pub(crate) const ASKED_AND_FUNDED: &str =
    r#"{"type":"product","token":"p1","product":"g","currency":"USD","funding":"GATEWAY"}
{"type":"user","token":"t1","user":"u1"}
{"type":"card","token":"t2","card":"c1","user":"u1","product":"g"}
{"type":"authorization","token":"a1","card":"c1","currency":"USD","amount":"60.00","mcc":"5411","mid":"m1","at":1000}
{"type":"answer","call":1,"outcome":"FUNDED"}
"#;

pub(crate) const REQUEST_AND_APPROVED: &str =
    r#"{"amount":"60.00","card":"c1","currency":"USD","event":"a1","mcc":"5411","method":"pgfs.authorization","mid":"m1","number":1,"token":"00000000-0000-8000-8000-000000000001","txn":"a1","user":"u1"}
{"event":"a1","reply":"approved"}
"#;

/// The lines after `ASKED` in `REPEAT_AT_THE_DEADLINE`.
pub(crate) const REPEATED: &str =
    r#"{"type":"authorization","token":"a1","card":"c1","currency":"USD","amount":"60.00","mcc":"5411","mid":"m1","at":4000}
{"type":"answer","call":1,"outcome":"FUNDED"}
"#;

pub(crate) const REQUEST_AND_REPEATED: &str =
    r#"{"amount":"60.00","card":"c1","currency":"USD","event":"a1","mcc":"5411","method":"pgfs.authorization","mid":"m1","number":1,"token":"00000000-0000-8000-8000-000000000001","txn":"a1","user":"u1"}
{"amount":"60.00","currency":"USD","gateway":"0.00","method":"x.void","notice":1,"token":"00000000-0000-8000-8000-000000000001","txn":"a1","user":"u1"}
{"event":"a1","reason":"GATEWAY_TIMEOUT","reply":"declined"}
{"event":"a1","reason":"GATEWAY_TIMEOUT","reply":"declined"}
{"call":1,"reply":"late","state":"TIMEOUT"}
"#;

/// Two users, of whom the second one is loaded first, in two currencies; the first one buys.
pub(crate) const HOLDING: &str = r#"{"type":"user","token":"t1","user":"b"}
{"type":"user","token":"t2","user":"a"}
{"type":"load","token":"t3","user":"b","currency":"USD","amount":"20.00"}
{"type":"load","token":"t4","user":"a","currency":"USD","amount":"30.00"}
{"type":"load","token":"t5","user":"a","currency":"JPY","amount":"500"}
{"type":"card","token":"t6","card":"c1","user":"a"}
{"type":"authorization","token":"a1","card":"c1","currency":"USD","amount":"12.50","mcc":"5411","mid":"m1"}
"#;

pub(crate) const HOLDING_REPORTED: &str =
    r#"{"account":"programme","balance":"-500","currency":"JPY"}
{"account":"programme","balance":"-50.00","currency":"USD"}
{"account":"user","balance":"500","currency":"JPY","held":"0","user":"a"}
{"account":"user","balance":"30.00","currency":"USD","held":"12.50","user":"a"}
{"account":"user","balance":"20.00","currency":"USD","held":"0.00","user":"b"}
{"calls":0,"notices":0,"records":7}
"#;

pub(crate) const ONE_USER_REPORTED: &str = "{\"calls\":0,\"notices\":0,\"records\":1}\n";

/// A purchase that comes again at its deadline, and its gateway's answer after that.
pub(crate) const REPEAT_AT_THE_DEADLINE: &str =
    r#"{"type":"product","token":"p1","product":"g","currency":"USD","funding":"GATEWAY"}
{"type":"user","token":"t1","user":"u1"}
{"type":"card","token":"t2","card":"c1","user":"u1","product":"g"}
{"type":"authorization","token":"a1","card":"c1","currency":"USD","amount":"60.00","mcc":"5411","mid":"m1","at":1000}
{"type":"authorization","token":"a1","card":"c1","currency":"USD","amount":"60.00","mcc":"5411","mid":"m1","at":4000}
{"type":"answer","call":1,"outcome":"FUNDED"}
"#;

pub(crate) const REPEAT_AT_THE_DEADLINE_TOLD: &str = r#"{"event":"p1","reply":"done"}
{"event":"t1","reply":"done"}
{"event":"t2","reply":"done"}
{"amount":"60.00","card":"c1","currency":"USD","event":"a1","mcc":"5411","method":"pgfs.authorization","mid":"m1","number":1,"token":"00000000-0000-8000-8000-000000000001","txn":"a1","user":"u1"}
{"amount":"60.00","currency":"USD","gateway":"0.00","method":"x.void","notice":1,"token":"00000000-0000-8000-8000-000000000001","txn":"a1","user":"u1"}
{"event":"a1","reason":"GATEWAY_TIMEOUT","reply":"declined"}
{"event":"a1","reason":"GATEWAY_TIMEOUT","reply":"declined"}
{"call":1,"reply":"late","state":"TIMEOUT"}
"#;

/// An acknowledgement at a deadline, before and after the time is taken.
pub(crate) const EARLY_ACKNOWLEDGEMENT: &str =
    r#"{"type":"product","token":"p1","product":"g","currency":"USD","funding":"GATEWAY"}
{"type":"user","token":"t1","user":"u1"}
{"type":"card","token":"t2","card":"c1","user":"u1","product":"g"}
{"type":"authorization","token":"a1","card":"c1","currency":"USD","amount":"60.00","mcc":"5411","mid":"m1","at":1000}
{"type":"ack","notice":1,"at":4000}
{"type":"time","at":4000}
{"type":"ack","notice":1}
"#;

pub(crate) const EARLY_ACKNOWLEDGEMENT_TOLD: &str = r#"{"event":"p1","reply":"done"}
{"event":"t1","reply":"done"}
{"event":"t2","reply":"done"}
{"amount":"60.00","card":"c1","currency":"USD","event":"a1","mcc":"5411","method":"pgfs.authorization","mid":"m1","number":1,"token":"00000000-0000-8000-8000-000000000001","txn":"a1","user":"u1"}
{"notice":1,"reply":"unknown"}
{"amount":"60.00","currency":"USD","gateway":"0.00","method":"x.void","notice":1,"token":"00000000-0000-8000-8000-000000000001","txn":"a1","user":"u1"}
{"event":"a1","reason":"GATEWAY_TIMEOUT","reply":"declined"}
{"reply":"time"}
{"notice":1,"reply":"acked"}
"#;

/// A time at which two calls end and a hold expires.
pub(crate) const TWO_TIMEOUTS_AND_AN_EXPIRY: &str =
    r#"{"type":"product","token":"p1","product":"g","currency":"USD","funding":"GATEWAY"}
{"type":"user","token":"t1","user":"u1"}
{"type":"card","token":"t2","card":"c1","user":"u1","product":"g"}
{"type":"authorization","token":"a1","card":"c1","currency":"USD","amount":"10.00","mcc":"5411","mid":"m1"}
{"type":"answer","call":1,"outcome":"FUNDED"}
{"type":"authorization","token":"a2","card":"c1","currency":"USD","amount":"20.00","mcc":"5411","mid":"m1","at":604796999}
{"type":"authorization","token":"a3","card":"c1","currency":"USD","amount":"30.00","mcc":"5411","mid":"m1","at":604797000}
{"type":"time","at":604800000}
"#;

pub(crate) const TWO_TIMEOUTS_AND_AN_EXPIRY_TOLD: &str = r#"{"event":"p1","reply":"done"}
{"event":"t1","reply":"done"}
{"event":"t2","reply":"done"}
{"amount":"10.00","card":"c1","currency":"USD","event":"a1","mcc":"5411","method":"pgfs.authorization","mid":"m1","number":1,"token":"00000000-0000-8000-8000-000000000001","txn":"a1","user":"u1"}
{"event":"a1","reply":"approved"}
{"amount":"20.00","card":"c1","currency":"USD","event":"a2","mcc":"5411","method":"pgfs.authorization","mid":"m1","number":2,"token":"00000000-0000-8000-8000-000000000002","txn":"a2","user":"u1"}
{"amount":"30.00","card":"c1","currency":"USD","event":"a3","mcc":"5411","method":"pgfs.authorization","mid":"m1","number":3,"token":"00000000-0000-8000-8000-000000000003","txn":"a3","user":"u1"}
{"amount":"20.00","currency":"USD","gateway":"0.00","method":"x.void","notice":1,"token":"00000000-0000-8000-8000-000000000002","txn":"a2","user":"u1"}
{"event":"a2","reason":"GATEWAY_TIMEOUT","reply":"declined"}
{"amount":"30.00","currency":"USD","gateway":"0.00","method":"x.void","notice":2,"token":"00000000-0000-8000-8000-000000000003","txn":"a3","user":"u1"}
{"event":"a3","reason":"GATEWAY_TIMEOUT","reply":"declined"}
{"amount":"10.00","currency":"USD","gateway":"10.00","method":"x.expiry","notice":3,"txn":"a1","user":"u1"}
{"reply":"time"}
"#;

/// A user of 36 letters, who is suspended and made active in turns.
pub(crate) const USER_THAT_MOVES: &str =
    r#"{"type":"user","token":"t1","user":"wwwwwwwwwwwwwwwwwwwwwwwwwwwwwwwwwwww"}
{"type":"move","token":"t2","user":"wwwwwwwwwwwwwwwwwwwwwwwwwwwwwwwwwwww","to":"SUSPENDED"}
{"type":"move","token":"t3","user":"wwwwwwwwwwwwwwwwwwwwwwwwwwwwwwwwwwww","to":"ACTIVE"}
{"type":"move","token":"t4","user":"wwwwwwwwwwwwwwwwwwwwwwwwwwwwwwwwwwww","to":"SUSPENDED"}
{"type":"move","token":"t5","user":"wwwwwwwwwwwwwwwwwwwwwwwwwwwwwwwwwwww","to":"ACTIVE"}
{"type":"move","token":"t6","user":"wwwwwwwwwwwwwwwwwwwwwwwwwwwwwwwwwwww","to":"SUSPENDED"}
{"type":"move","token":"t7","user":"wwwwwwwwwwwwwwwwwwwwwwwwwwwwwwwwwwww","to":"ACTIVE"}
{"type":"move","token":"t8","user":"wwwwwwwwwwwwwwwwwwwwwwwwwwwwwwwwwwww","to":"SUSPENDED"}
{"type":"move","token":"t9","user":"wwwwwwwwwwwwwwwwwwwwwwwwwwwwwwwwwwww","to":"ACTIVE"}
"#;

/// What they are told on a device of 707 bytes in halves, which has room for eight records.
pub(crate) const USER_THAT_MOVES_TOLD: &str = r#"{"event":"t1","reply":"done"}
{"event":"t2","reply":"done"}
{"event":"t3","reply":"done"}
{"event":"t4","reply":"done"}
{"event":"t5","reply":"done"}
{"event":"t6","reply":"done"}
{"event":"t7","reply":"done"}
{"event":"t8","reply":"done"}
{"free":37,"need":56,"reply":"full"}
"#;

/// The first six of these lines.
pub(crate) const SIX_MOVES: &str =
    r#"{"type":"user","token":"t1","user":"wwwwwwwwwwwwwwwwwwwwwwwwwwwwwwwwwwww"}
{"type":"move","token":"t2","user":"wwwwwwwwwwwwwwwwwwwwwwwwwwwwwwwwwwww","to":"SUSPENDED"}
{"type":"move","token":"t3","user":"wwwwwwwwwwwwwwwwwwwwwwwwwwwwwwwwwwww","to":"ACTIVE"}
{"type":"move","token":"t4","user":"wwwwwwwwwwwwwwwwwwwwwwwwwwwwwwwwwwww","to":"SUSPENDED"}
{"type":"move","token":"t5","user":"wwwwwwwwwwwwwwwwwwwwwwwwwwwwwwwwwwww","to":"ACTIVE"}
{"type":"move","token":"t6","user":"wwwwwwwwwwwwwwwwwwwwwwwwwwwwwwwwwwww","to":"SUSPENDED"}
"#;

/// The seventh of these lines.
pub(crate) const SEVENTH_MOVE: &str =
    r#"{"type":"move","token":"t7","user":"wwwwwwwwwwwwwwwwwwwwwwwwwwwwwwwwwwww","to":"ACTIVE"}
"#;

pub(crate) const SEVENTH_DONE: &str = "{\"event\":\"t7\",\"reply\":\"done\"}\n";

/// What two users are told on a device of 100 bytes in halves, which has room for one.
pub(crate) const TWO_USERS_AND_ONE_TOLD: &str = r#"{"event":"t1","reply":"done"}
{"free":16,"need":20,"reply":"full"}
"#;

/// What an input is told after as many records as there may be.
pub(crate) const SPENT: &str = "{\"reply\":\"spent\"}\n";

/// A day of a user with a card: five purchases and a refund, of which the programme stands in for the last.
pub(crate) const DAY: &str =
    r#"{"type":"product","token":"p1","product":"g","currency":"USD","funding":"GATEWAY"}
{"type":"user","token":"t1","user":"u1"}
{"type":"card","token":"t2","card":"c1","user":"u1","product":"g"}
{"type":"control","token":"t4","control":"v1","currency":"USD","window":"DAY","amount_limit":"200.00"}
{"type":"set","token":"t5","set":"s1","product":"g","currency":"USD","connection":true,"max":"100.00","day_limit":"100.00"}
{"type":"authorization","token":"a1","card":"c1","currency":"USD","amount":"42.50","mcc":"5411","mid":"m1"}
{"type":"answer","call":1,"outcome":"FUNDED"}
{"type":"clearing","token":"k1","txn":"a1","currency":"USD","amount":"42.50","final":true}
{"type":"authorization","token":"a2","card":"c1","currency":"USD","amount":"1.00","mcc":"5411","mid":"m1"}
{"type":"answer","call":2,"outcome":"FUNDED"}
{"type":"increment","token":"i1","txn":"a2","currency":"USD","amount":"49.00"}
{"type":"answer","call":3,"outcome":"FUNDED"}
{"type":"clearing","token":"k2","txn":"a2","currency":"USD","amount":"38.20","final":true}
{"type":"authorization","token":"a3","card":"c1","currency":"USD","amount":"30.00","mcc":"5411","mid":"m1"}
{"type":"answer","call":4,"outcome":"FUNDED"}
{"type":"clearing","token":"k3","txn":"a3","currency":"USD","amount":"36.00","final":true}
{"type":"refund","token":"f1","txn":"a1","currency":"USD","amount":"10.00"}
{"type":"authorization","token":"a4","card":"c1","currency":"USD","amount":"25.00","mcc":"5411","mid":"m1"}
{"type":"answer","call":5,"outcome":"CONNECTION"}
{"type":"clearing","token":"k4","txn":"a4","currency":"USD","amount":"25.00","final":true}
"#;

/// What it is told.
pub(crate) const DAY_TOLD: &str = r#"{"event":"p1","reply":"done"}
{"event":"t1","reply":"done"}
{"event":"t2","reply":"done"}
{"event":"t4","reply":"done"}
{"event":"t5","reply":"done"}
{"amount":"42.50","card":"c1","currency":"USD","event":"a1","mcc":"5411","method":"pgfs.authorization","mid":"m1","number":1,"token":"00000000-0000-8000-8000-000000000001","txn":"a1","user":"u1"}
{"event":"a1","reply":"approved"}
{"amount":"42.50","currency":"USD","gateway":"0.00","method":"pgfs.authorization.capture","notice":1,"txn":"a1","user":"u1"}
{"event":"k1","reply":"done"}
{"amount":"1.00","card":"c1","currency":"USD","event":"a2","mcc":"5411","method":"pgfs.authorization","mid":"m1","number":2,"token":"00000000-0000-8000-8000-000000000002","txn":"a2","user":"u1"}
{"event":"a2","reply":"approved"}
{"amount":"49.00","card":"c1","currency":"USD","event":"i1","mcc":"5411","method":"pgfs.authorization.incremental","mid":"m1","number":3,"token":"00000000-0000-8000-8000-000000000003","txn":"a2","user":"u1"}
{"event":"i1","reply":"approved"}
{"amount":"38.20","currency":"USD","gateway":"11.80","method":"pgfs.authorization.capture","notice":2,"txn":"a2","user":"u1"}
{"event":"k2","reply":"done"}
{"amount":"30.00","card":"c1","currency":"USD","event":"a3","mcc":"5411","method":"pgfs.authorization","mid":"m1","number":4,"token":"00000000-0000-8000-8000-000000000004","txn":"a3","user":"u1"}
{"event":"a3","reply":"approved"}
{"amount":"36.00","currency":"USD","gateway":"0.00","method":"pgfs.authorization.capture","notice":3,"txn":"a3","user":"u1"}
{"event":"k3","reply":"done"}
{"amount":"10.00","currency":"USD","gateway":"10.00","method":"pgfs.refund","notice":4,"txn":"a1","user":"u1"}
{"event":"f1","reply":"done"}
{"amount":"25.00","card":"c1","currency":"USD","event":"a4","mcc":"5411","method":"pgfs.authorization","mid":"m1","number":5,"token":"00000000-0000-8000-8000-000000000005","txn":"a4","user":"u1"}
{"amount":"25.00","currency":"USD","gateway":"0.00","method":"x.void","notice":5,"token":"00000000-0000-8000-8000-000000000005","txn":"a4","user":"u1"}
{"amount":"25.00","currency":"USD","gateway":"0.00","method":"x.standin","notice":6,"txn":"a4","user":"u1"}
{"event":"a4","reply":"approved"}
{"amount":"25.00","currency":"USD","gateway":"0.00","method":"pgfs.authorization.capture","notice":7,"txn":"a4","user":"u1"}
{"event":"k4","reply":"done"}
"#;

/// What is then reported.
pub(crate) const DAY_REPORTED: &str = r#"{"account":"gateway","balance":"-100.70","currency":"USD"}
{"account":"network","balance":"131.70","currency":"USD"}
{"account":"programme","balance":"-31.00","currency":"USD"}
{"account":"user","balance":"0.00","currency":"USD","held":"0.00","user":"u1"}
{"calls":0,"notices":7,"records":20}
"#;
