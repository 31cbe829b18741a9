//! The example of how the crates are called, on a run that was worked by hand.
use srm_examples::trace_of::trace_of;
use std::alloc::AllocError;

// A chain of two: the first packet is lost on its way, asked for, and repaired.
const TEXT: &str = r#"version = 1
until = 1000
c1 = 1500
c2 = 0
d1 = 1000
d2 = 0
topology = "chain"
size = 2
delay = 1
member = [
  { node = 0, role = "sender", stream = 1 },
  { node = 1, role = "receiver", stream = 2 },
]
draw = [
  { member = 0, page = 0, ink = 7, at = 0 },
  { member = 0, page = 0, ink = 8, at = 10 },
]
drop = [{ link = 0, sender = 0, count = 0 }]
"#;

const TRACE: &[u8] = b"time,member,cause,ref,result,lost,sent
0,0,join,-,in,0,-
0,0,draw,0/0/0,sent,0,0:0
0,1,join,-,in,0,-
10,0,draw,0/0/1,sent,0,0:1
11,1,data,0:1,fresh,1,-
12,1,ask,0/0/0,sent,0,1:0
13,0,request,1:0,plan,0,-
14,0,answer,0/0/0,sent,0,0:2
15,1,repair,0:2,fixed,0,-
";

#[test]
fn a_text_gives_the_trace_of_its_run(rt: HostRuntime) -> Result<(), AllocError> {
    let Some(trace) = trace_of(rt.alloc(), TEXT.as_bytes(), 0) else {
        return Err(AllocError);
    };
    assert_eq!(rt; trace.as_slice(), TRACE);
    Ok(())
}
