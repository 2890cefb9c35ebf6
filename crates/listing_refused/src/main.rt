// The listing program, run on a file that is refused.
#![tactic(auto)]

use lines::Room;
use list_file::Input;
use list_input::list_input;
use std::io;

fn main(rt: HostRuntime) -> io::Result<()> {
    let mut input = [0u8; Input::ROOM];
    let mut text = [0u8; Room::TEXT];
    list_input(&mut rt.stdin(), &mut rt.stdout(), &mut input, &mut text)?;
    Ok(())
}
