// The texts of examples/ by their names there.
use sample_networks::texts;

fn network(name: &str) -> &'static str {
    if name == "lamp.net" {
        return texts::LAMP;
    }
    if name == "join.net" {
        return texts::JOIN;
    }
    if name == "value.net" {
        return texts::VALUE;
    }
    if name == "echo.net" {
        return texts::ECHO;
    }
    if name == "two.net" {
        return texts::TWO;
    }
    if name == "loop.net" {
        return texts::LOOP;
    }
    if name == "pong.net" {
        return texts::PONG;
    }
    if name == "belt.net" {
        return texts::BELT;
    }
    if name == "pairs.net" {
        return texts::PAIRS;
    }
    if name == "quiet.net" {
        return texts::QUIET;
    }
    if name == "clash.net" {
        return texts::CLASH;
    }
    design(name)
}

fn design(name: &str) -> &'static str {
    if name == "protocol.net" {
        return texts::PROTOCOL;
    }
    if name == "protocol_fault.net" {
        return texts::PROTOCOL_FAULT;
    }
    if name == "protocol_monitor.net" {
        return texts::PROTOCOL_MONITOR;
    }
    if name == "light.net" {
        return texts::LIGHT;
    }
    trace(name)
}

fn trace(name: &str) -> &'static str {
    if name == "join.trc" {
        return texts::JOIN_TRACE;
    }
    if name == "value.trc" {
        return texts::VALUE_TRACE;
    }
    if name == "echo.trc" {
        return texts::ECHO_TRACE;
    }
    if name == "belt.trc" {
        return texts::BELT_TRACE;
    }
    if name == "clash.trc" {
        return texts::CLASH_TRACE;
    }
    if name == "protocol.trc" {
        return texts::PROTOCOL_TRACE;
    }
    if name == "light.trc" {
        return texts::LIGHT_TRACE;
    }
    "no such text"
}

/// The text of a name, without its last line end.
pub fn sample(name: &str) -> &'static str {
    let text = network(name);
    text.strip_suffix("\n").unwrap_or(text)
}
