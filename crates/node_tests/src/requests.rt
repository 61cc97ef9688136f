//! What stops a client's requests, as it is told.
use crate::told::is_told;
use express_words::Refusal;
use node_client::Stop;
use std::alloc::Global;
use std::test::Fail;

const STOPS: [Stop; 5] = [
    Stop::Answer,
    Stop::Later(Refusal::LinkDown(7)),
    Stop::Spent,
    Stop::Full,
    Stop::Fault(2),
];

fn stops_told(alloc: Global, stops: &[Stop]) -> Result<String, Fail> {
    let mut told = String::new(alloc);
    for stop in stops {
        write!(told, "{stop}\n")?;
    }
    Ok(told)
}

#[test]
fn stop_texts(rt: HostRuntime) -> Result<(), Fail> {
    let wanted = "answer\nlinkdown 7\nspent\nfull\nnet fault\n";
    is_told(stops_told(rt.alloc(), &STOPS), wanted)
}
