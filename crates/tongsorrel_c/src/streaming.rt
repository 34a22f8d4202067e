// The device event by event of `tongsorrel`, for C and Rust.
ghost use Rattle.std.specs.Prelude.{◌≡◌, length};
ghost use Rattle.bus.specs.Automaton.{start, byte, again, clock, stop};
ghost use Rattle.device.specs.Step.{measure, sample, alert_response, tick};
ghost use Rattle.buffer.specs.Buffer.{event_fed, event_gives, call_fed, call_gives, call_sends, power_fed, power_gives, power_by_fed, power_by_gives, buffer_supplies, buffer_alert};

// Power-on of a buffer, whatever it holds.
#[unsafe(no_mangle)]
pub extern "C" fn tongsorrel_stream_power_on(state: &mut [u8]) -> u8
    ensures { (result ≡ power_gives state.old) × (state.new ≡ power_fed state.old) }
{
    tongsorrel::streaming::tongsorrel_stream_power_on(state)
}

// Power-on of a buffer by a choice for each page, 30 bytes each: three formats (a mark, m, b, R) and six fault limits. Choices that are not
// granted get 27, and the buffer is then as tongsorrel_stream_power_on leaves it.
#[unsafe(no_mangle)]
pub extern "C" fn tongsorrel_stream_power_on_by(state: &mut [u8], choices: &[u8]) -> u8
    ensures { (result ≡ power_by_gives state.old choices.now)
        × (state.new ≡ power_by_fed state.old choices.now) }
{
    tongsorrel::streaming::tongsorrel_stream_power_on_by(state, choices)
}

// START.
#[unsafe(no_mangle)]
pub extern "C" fn tongsorrel_stream_start(state: &mut [u8]) -> u8
    ensures { (result ≡ event_gives state.old start) × (state.new ≡ event_fed state.old start) }
{
    tongsorrel::streaming::tongsorrel_stream_start(state)
}

// A byte that the host wrote: 1 for ACK, 0 for NACK.
#[unsafe(no_mangle)]
pub extern "C" fn tongsorrel_stream_byte(state: &mut [u8], b: u8) -> u8
    ensures { (result ≡ event_gives state.old (byte b)) × (state.new ≡ event_fed state.old (byte b)) }
{
    tongsorrel::streaming::tongsorrel_stream_byte(state, b)
}

// A repeated START.
#[unsafe(no_mangle)]
pub extern "C" fn tongsorrel_stream_repeated_start(state: &mut [u8]) -> u8
    ensures { (result ≡ event_gives state.old again) × (state.new ≡ event_fed state.old again) }
{
    tongsorrel::streaming::tongsorrel_stream_repeated_start(state)
}

// A byte that the host clocks: what is sent.
#[unsafe(no_mangle)]
pub extern "C" fn tongsorrel_stream_clock(state: &mut [u8]) -> u8
    ensures { (result ≡ event_gives state.old clock) × (state.new ≡ event_fed state.old clock) }
{
    tongsorrel::streaming::tongsorrel_stream_clock(state)
}

// STOP: the answer.
#[unsafe(no_mangle)]
pub extern "C" fn tongsorrel_stream_stop(state: &mut [u8]) -> u8
    ensures { (result ≡ event_gives state.old stop) × (state.new ≡ event_fed state.old stop) }
{
    tongsorrel::streaming::tongsorrel_stream_stop(state)
}

// The latest word of a quantity (0 VOUT, 1 IOUT, 2 VIN, 3 temperature) on a page.
#[unsafe(no_mangle)]
pub extern "C" fn tongsorrel_stream_measure(
    state: &mut [u8],
    page: u8,
    quantity: u8,
    word: u16,
) -> u8
    ensures { (result ≡ call_gives state.old (measure page quantity word)) × (state.new ≡ call_fed state.old (measure page quantity word)) }
{
    tongsorrel::streaming::tongsorrel_stream_measure(state, page, quantity, word)
}

// A power sample for the energy account.
#[unsafe(no_mangle)]
pub extern "C" fn tongsorrel_stream_sample(state: &mut [u8], power: u16) -> u8
    ensures { (result ≡ call_gives state.old (sample power)) × (state.new ≡ call_fed state.old (sample power)) }
{
    tongsorrel::streaming::tongsorrel_stream_sample(state, power)
}

// A tick: one unit of the delays on every page.
#[unsafe(no_mangle)]
pub extern "C" fn tongsorrel_stream_tick(state: &mut [u8]) -> u8
    ensures { (result ≡ call_gives state.old tick) × (state.new ≡ call_fed state.old tick) }
{
    tongsorrel::streaming::tongsorrel_stream_tick(state)
}

// The alert response, with a reply buffer as long as the host clocks bytes.
#[unsafe(no_mangle)]
pub extern "C" fn tongsorrel_stream_alert_response(state: &mut [u8], reply: &mut [u8]) -> u8
    ensures { (result ≡ call_gives state.old (alert_response (length reply.old)))
        × ((state.new ≡ call_fed state.old (alert_response (length reply.old))) × (reply.new ≡ call_sends state.old (alert_response (length reply.old)))) }
{
    tongsorrel::streaming::tongsorrel_stream_alert_response(state, reply)
}

// Whether the firmware keeps the supply of a page switched on: 1 or 0; a page over 7 is off.
#[unsafe(no_mangle)]
pub extern "C" fn tongsorrel_stream_supplies(state: &[u8], page: u8) -> u8
    ensures { result ≡ buffer_supplies state.now page }
{
    tongsorrel::streaming::tongsorrel_stream_supplies(state, page)
}

// Whether the alert is up: 1 or 0.
#[unsafe(no_mangle)]
pub extern "C" fn tongsorrel_stream_alert(state: &[u8]) -> u8
    ensures { result ≡ buffer_alert state.now }
{
    tongsorrel::streaming::tongsorrel_stream_alert(state)
}
